//! What the tier lists and counts.
ghost use Rattle.std.specs.Prelude.{◌≡◌, option_map, unwrap_or};
ghost use Rattle.tier_calls.specs.Tiers.{outside_in};
ghost use Rattle.tier_calls.specs.Called.{IsEvicted, IsList, IsListed, IsReported, IsWeight, counts_of, no_counts};

use super::TierHandle;
use crate::lends::entry_shown;
use crate::statuses;
use crate::structs::{CallAnswer, Counts, EntryShown};
use crate::told::{numbered, plain};
use cache_entries::entry::CacheEntryKey;
use tier_model::event::Entries;
use tier_model::report::Report;

impl TierHandle {
    /// Shows an entry that the last event evicted.
    pub fn evicted(&mut self, place: u64, out: &mut EntryShown)
        ensures { IsEvicted self.old place out.new self.new }
    {
        *out = entry_shown(self.evicted.as_slice().get(place as usize), 0);
    }

    /// Lists the entries of a shard, most recently used first.
    pub fn list(&mut self, shard: u64, out: &mut CallAnswer)
        ensures { IsList self.old shard out.new self.new }
    {
        *out = match self.tier.entries(self.alloc, shard) {
            Some(Ok(entries)) => {
                let count = entries.len() as u64;
                self.list = Entries::from_vec(entries);
                numbered(statuses::SHOWN, count)
            }
            Some(Err(_)) => plain(statuses::MEMORY),
            None => plain(statuses::BAD_CALL),
        };
    }

    /// Shows an entry of the list.
    pub fn listed(&mut self, place: u64, out: &mut EntryShown)
        ensures { IsListed self.old place out.new self.new }
    {
        let entry = self.list.as_slice().get(place as usize);
        *out = entry_shown(entry, self.outside(entry));
    }

    // How many bytes the finished body of an entry's key has outside.
    fn outside(&self, entry: Option<&CacheEntryKey>) -> u64
        ensures { result ≡ unwrap_or (option_map (λ e. outside_in self.now.tier e.now) entry.entry) 0 }
    {
        match entry {
            Some(entry) => self.tier.outside(entry),
            None => 0,
        }
    }

    /// Tells the sum of the entries' weights, and how many they are, in constant time.
    pub fn weight(&mut self, out: &mut CallAnswer)
        ensures { IsWeight self.old out.new self.new }
    {
        *out = match self.tier.weight() {
            Some((weight, tracked)) => CallAnswer {
                number: weight,
                second: tracked,
                ..plain(statuses::SHOWN)
            },
            None => plain(statuses::BAD_CALL),
        };
    }

    /// Tells what the tier did and holds.
    pub fn report(&mut self, out: &mut Counts)
        ensures { IsReported self.old out.new self.new }
    {
        *out = match self.tier.report() {
            Some(report) => counts_of(&report),
            None => no_counts(),
        };
    }
}

fn counts_of(report: &Report) -> Counts
    ensures { result ≡ counts_of report.now }
{
    Counts {
        found: report.found,
        absent: report.absent,
        bodies: report.bodies,
        bytes: report.bytes,
        meta: report.meta,
        external: report.external,
        tracked: report.tracked,
        weight: report.weight,
        evicted: report.evicted,
        reserved: [0; 3],
    }
}

fn no_counts() -> Counts
    ensures { result ≡ no_counts }
{
    Counts {
        found: 0,
        absent: 0,
        bodies: 0,
        bytes: 0,
        meta: 0,
        external: 0,
        tracked: 0,
        weight: 0,
        evicted: 0,
        reserved: [0; 3],
    }
}
