//! Replays that start from a folder and save to it.
ghost use Rattle.std.specs.Prelude.{◌≡◌, ◌⊎◌, ◌<◌, ◌≤◌, ◌-◌, ◌^◌, ℕ, List, ◌++◌, length, IfOk, IfErr, OnOk, OnErr, IfSome, IsSome, Some, None, [], Ok, Err, Result, string_bytes};
ghost use Rattle.std.specs.Io.KnownBytes.{Appends};
ghost use Rattle.trace_replay.specs.CommandLine.{count_of};
ghost use Rattle.trace_replay.specs.Outputs.{HasBegun};
ghost use Rattle.trace_replay.specs.Replays.{requests_in, lines_in, ended, IsBegun, IsReplay};
ghost use Rattle.trace_replay.specs.Restarts.{EndsEarly, IsLoadReport, IsRestart, IsUntouched, counts_text, last_line, loaded_text, next_words};
ghost use Rattle.trace_replay.specs.Words.{pcg_words};
ghost use Rattle.trace_replay.specs.Starts.{start_of};
ghost use Rattle.tier_single.specs.Restarts.{SavesOrder, LoadsOrder};
ghost use Rattle.cache_evict.specs.Managed.{fresh};
ghost use Rattle.cache_words.specs.declared.pack.fault.PackWriteFault.{PackWriteFault};
ghost use Rattle.lru_files.specs.declared.fault.ShardSaveReport.{ShardSaveReport};
ghost use Rattle.tier_model.specs.Past.{HasPast};
ghost use Rattle.tier_model.specs.Started.{IsNew, opening_of};
ghost use Rattle.trace_replay.specs.Errors.{IsOther};

use crate::options::{ReplayOptions, ShardCount};
use crate::output::hand_on;
use crate::replay::{ReplayError, answer_trace, run, tier_for};
use cache_evict::LoadFault;
use lru_files::persistence::{Folder, ShardLoadReport};
use rand_core::{Rng, SeedableRng};
use rand_pcg::Pcg64;
use seeded_hashing::SeededState;
use std::alloc::{AllocError, Global};
use std::io::{Read, Write};
use tier_single::TierFault;
use tier_single::tier::Tier;

/// Does what [`run`] does, by a tier that starts from the directory of the options, if they name one: what was loaded is reported in a
/// first line, before any read, and after the report the order of use is saved there, which a last line reports. The words of the save
/// are drawn from the generator after those of the trace.
///
/// `loaded` is then the report of the loading, which names the shards whose files could not be read; it stays whatever comes after. It is
/// `None` without a directory, or where the run ended before that.
///
/// # Errors
///
/// Those of `run`. Nothing is saved where they come before the last line: the directory is as it was before, or as the loading left it,
/// without temporary files. `Folder` where no shard was saved: the last line is written all the same.
pub fn run_reporting<F: Folder, R: Read, W: Write>(
    alloc: Global,
    hasher: SeededState,
    folder: &mut F,
    reader: &mut R,
    writer: &mut W,
    options: &ReplayOptions,
    loaded: &mut Option<ShardLoadReport<LoadFault>>,
) -> Result<(), ReplayError>
    ensures restarts { IfSome options.now.recency (λ dir. OnOk result (IfSome (R.remaining reader.old) (λ input. (text : List ℕ)
        × Appends (W.contents writer.old) (W.contents writer.new) text
        × IsRestart F.did F.failures_of F.keeps F.files (count_of options.now.shards) options.now (string_bytes dir) (requests_in input) folder.old folder.new text result))) }
    ensures unsaved { IfSome options.now.recency (λ dir. result ≡ Err ReplayError.Folder → IfSome (R.remaining reader.old) (λ input. (text : List ℕ)
        × Appends (W.contents writer.old) (W.contents writer.new) text
        × IsRestart F.did F.failures_of F.keeps F.files (count_of options.now.shards) options.now (string_bytes dir) (requests_in input) folder.old folder.new text result)) }
    ensures early { IfSome options.now.recency (λ dir. OnErr result (IfSome (R.remaining reader.old) (λ input. (text : List ℕ)
        × Appends (W.contents writer.old) (W.contents writer.new) text
        × EndsEarly F.did F.failures_of F.keeps F.files (count_of options.now.shards) options.now (string_bytes dir) (requests_in input) folder.old folder.new text))) }
    ensures too_many { result ≡ Err ReplayError.TooManyReads → IfSome (R.remaining reader.old) (λ input. 2 ^ 64 - 1 ≤ length (lines_in input)) }
    ensures runs { options.now.recency ≡ None → OnOk result (IfSome (R.remaining reader.old) (λ input. (text : List ℕ)
        × Appends (W.contents writer.old) (W.contents writer.new) text
        × IsReplay (start_of options.now) (requests_in input) text)) }
    ensures begun { options.now.recency ≡ None → OnErr result (IfSome (R.remaining reader.old) (λ input. (text : List ℕ)
        × Appends (W.contents writer.old) (W.contents writer.new) text
        × IsBegun (start_of options.now) (requests_in input) text)) }
    ensures no_folder { options.now.recency ≡ None → result ≡ Err ReplayError.Folder → ⊥ }
    ensures untouched { options.now.recency ≡ None → folder.new ≡ folder.old }
    ensures reported { IfSome options.now.recency (λ dir.
        IfSome loaded.new (IsLoadReport F.did F.failures_of F.keeps F.files (count_of options.now.shards) options.now (string_bytes dir) folder.old)) }
    ensures reports { IfSome options.now.recency (λ dir. OnOk result (IsSome loaded.new)) }
    ensures unreported { options.now.recency ≡ None → loaded.new ≡ None }
{
    *loaded = None;
    let Some(dir) = &options.recency else {
        return run(alloc, hasher, reader, writer, options);
    };
    let dir = dir.as_str();
    match options.shards {
        ShardCount::One => {
            restart::<F, R, W, 1>(alloc, hasher, folder, dir, reader, writer, options, loaded)
        }
        ShardCount::Four => {
            restart::<F, R, W, 4>(alloc, hasher, folder, dir, reader, writer, options, loaded)
        }
        ShardCount::Sixteen => {
            restart::<F, R, W, 16>(alloc, hasher, folder, dir, reader, writer, options, loaded)
        }
    }
}

/// Does what [`run_reporting`] does, and leaves out the report.
pub fn run_in<F: Folder, R: Read, W: Write>(
    alloc: Global,
    hasher: SeededState,
    folder: &mut F,
    reader: &mut R,
    writer: &mut W,
    options: &ReplayOptions,
) -> Result<(), ReplayError>
    ensures restarts { IfSome options.now.recency (λ dir. OnOk result (IfSome (R.remaining reader.old) (λ input. (text : List ℕ)
        × Appends (W.contents writer.old) (W.contents writer.new) text
        × IsRestart F.did F.failures_of F.keeps F.files (count_of options.now.shards) options.now (string_bytes dir) (requests_in input) folder.old folder.new text result))) }
    ensures unsaved { IfSome options.now.recency (λ dir. result ≡ Err ReplayError.Folder → IfSome (R.remaining reader.old) (λ input. (text : List ℕ)
        × Appends (W.contents writer.old) (W.contents writer.new) text
        × IsRestart F.did F.failures_of F.keeps F.files (count_of options.now.shards) options.now (string_bytes dir) (requests_in input) folder.old folder.new text result)) }
    ensures early { IfSome options.now.recency (λ dir. OnErr result (IfSome (R.remaining reader.old) (λ input. (text : List ℕ)
        × Appends (W.contents writer.old) (W.contents writer.new) text
        × EndsEarly F.did F.failures_of F.keeps F.files (count_of options.now.shards) options.now (string_bytes dir) (requests_in input) folder.old folder.new text))) }
    ensures too_many { result ≡ Err ReplayError.TooManyReads → IfSome (R.remaining reader.old) (λ input. 2 ^ 64 - 1 ≤ length (lines_in input)) }
    ensures runs { options.now.recency ≡ None → OnOk result (IfSome (R.remaining reader.old) (λ input. (text : List ℕ)
        × Appends (W.contents writer.old) (W.contents writer.new) text
        × IsReplay (start_of options.now) (requests_in input) text)) }
    ensures begun { options.now.recency ≡ None → OnErr result (IfSome (R.remaining reader.old) (λ input. (text : List ℕ)
        × Appends (W.contents writer.old) (W.contents writer.new) text
        × IsBegun (start_of options.now) (requests_in input) text)) }
    ensures no_folder { options.now.recency ≡ None → result ≡ Err ReplayError.Folder → ⊥ }
    ensures untouched { options.now.recency ≡ None → folder.new ≡ folder.old }
{
    let mut loaded = None;
    run_reporting(alloc, hasher, folder, reader, writer, options, &mut loaded)
}

// The same by a tier of N shards, from this directory.
fn restart<F: Folder, R: Read, W: Write, const N: usize>(
    alloc: Global,
    hasher: SeededState,
    folder: &mut F,
    dir: &str,
    reader: &mut R,
    writer: &mut W,
    options: &ReplayOptions,
    loaded: &mut Option<ShardLoadReport<LoadFault>>,
) -> Result<(), ReplayError>
    requires shards { 0 < N }
    requires unreported { loaded.old ≡ None }
    ensures reported { IfSome loaded.new (IsLoadReport F.did F.failures_of F.keeps F.files N options.now dir.now folder.old) }
    ensures reports { OnOk result (IsSome loaded.new) }
    ensures restarts { OnOk result (IfSome (R.remaining reader.old) (λ input. (text : List ℕ)
        × Appends (W.contents writer.old) (W.contents writer.new) text
        × IsRestart F.did F.failures_of F.keeps F.files N options.now dir.now (requests_in input) folder.old folder.new text result)) }
    ensures unsaved { result ≡ Err ReplayError.Folder → IfSome (R.remaining reader.old) (λ input. (text : List ℕ)
        × Appends (W.contents writer.old) (W.contents writer.new) text
        × IsRestart F.did F.failures_of F.keeps F.files N options.now dir.now (requests_in input) folder.old folder.new text result) }
    ensures early { OnErr result (IfSome (R.remaining reader.old) (λ input. (text : List ℕ)
        × Appends (W.contents writer.old) (W.contents writer.new) text
        × EndsEarly F.did F.failures_of F.keeps F.files N options.now dir.now (requests_in input) folder.old folder.new text)) }
    ensures too_many { result ≡ Err ReplayError.TooManyReads → IfSome (R.remaining reader.old) (λ input. 2 ^ 64 - 1 ≤ length (lines_in input)) }
{
    let mut tier = tier_for::<N>(alloc, hasher, options)?;
    let mut rng = Pcg64::seed_from_u64(options.seed);
    start(alloc, &mut tier, folder, dir, writer, loaded)?;
    answer_trace(alloc, &mut tier, &mut rng, reader, writer)?;
    let words = draw(alloc, &mut rng, N)?;
    save(alloc, &tier, folder, dir, words.as_slice(), writer)
}

// Loads the order of use, and writes what came of it.
fn start<F: Folder, W: Write, const N: usize>(
    alloc: Global,
    tier: &mut Tier<N, SeededState>,
    folder: &mut F,
    dir: &str,
    writer: &mut W,
    loaded: &mut Option<ShardLoadReport<LoadFault>>,
) -> Result<(), ReplayError>
    requires { IsNew tier.old }
    ensures reported { (loaded.new ≡ loaded.old) ⊎ ((report : ShardLoadReport LoadFault) × (loaded.new ≡ Some report)
        × LoadsOrder F.did F.failures_of F.keeps F.files N dir.now (fresh N tier.old.managed.limit tier.old.managed.watermark) tier.new.managed folder.old folder.new (Ok report)) }
    ensures reports { OnOk result (IsSome loaded.new) }
    ensures loaded { OnOk result ((report : ShardLoadReport LoadFault)
        × LoadsOrder F.did F.failures_of F.keeps F.files N dir.now (fresh N tier.old.managed.limit tier.old.managed.watermark) tier.new.managed folder.old folder.new (Ok report)
        × Appends (W.contents writer.old) (W.contents writer.new) (ended (loaded_text report))) }
    ensures early { OnErr result ((IsUntouched F.did F.failures_of F.keeps F.files folder.old folder.new [] × Appends (W.contents writer.old) (W.contents writer.new) [])
        ⊎ ((report : ShardLoadReport LoadFault) × LoadsOrder F.did F.failures_of F.keeps F.files N dir.now (fresh N tier.old.managed.limit tier.old.managed.watermark)
        tier.new.managed folder.old folder.new (Ok report)
        × HasBegun (W.contents writer.old) (W.contents writer.new) (ended (loaded_text report)))) }
    ensures others { tier.new ≡ record tier.old { managed = tier.new.managed } }
    ensures past { HasPast (opening_of tier.new) tier.new [] }
    ensures other { IfErr result IsOther }
{
    let Ok(report) = tier.start(folder, dir) else {
        return Err(ReplayError::Memory);
    };
    let line = loaded_line(alloc, &report)?;
    *loaded = Some(report);
    write_line(alloc, line.as_str(), writer)
}

// So many words of the generator.
fn draw(alloc: Global, rng: &mut Pcg64, count: usize) -> Result<Vec<u32>, AllocError>
    ensures words { IfOk result (λ words. (words.items, pcg_words rng.new) ≡ next_words count (pcg_words rng.old)) }
{
    let mut words = Vec::with_capacity(alloc, count)?;
    for _ in 0..count {
        words.push(rng.next_u32())?;
    }
    Ok(words)
}

// Saves the order of use, and writes what came of it.
fn save<F: Folder, W: Write, const N: usize>(
    alloc: Global,
    tier: &Tier<N, SeededState>,
    folder: &mut F,
    dir: &str,
    words: &[u32],
    writer: &mut W,
) -> Result<(), ReplayError>
    requires { length words.now ≡ N }
    ensures saved { OnOk result ((report : ShardSaveReport PackWriteFault)
        × SavesOrder F.did F.failures_of F.keeps F.files N dir.now tier.now.managed words.now folder.old folder.new (Ok report)
        × Appends (W.contents writer.old) (W.contents writer.new) (ended (counts_text report.saved (length report.failed.items)))) }
    ensures unsaved { result ≡ Err ReplayError.Folder → SavesOrder F.did F.failures_of F.keeps F.files N dir.now tier.now.managed words.now folder.old folder.new (Err TierFault.Folder)
        × Appends (W.contents writer.old) (W.contents writer.new) (ended (counts_text 0 N)) }
    ensures early { OnErr result ((came : Result (ShardSaveReport PackWriteFault) TierFault)
        × SavesOrder F.did F.failures_of F.keeps F.files N dir.now tier.now.managed words.now folder.old folder.new came
        × HasBegun (W.contents writer.old) (W.contents writer.new) (last_line N came)) }
    ensures too_many { result ≡ Err ReplayError.TooManyReads → ⊥ }
{
    match tier.save(folder, dir, words) {
        Ok(report) => write_saved(alloc, report.saved, report.failed.len(), writer),
        Err(TierFault::Folder) => {
            write_saved(alloc, 0, N, writer)?;
            Err(ReplayError::Folder)
        }
        Err(_) => Err(ReplayError::Memory),
    }
}

fn loaded_line(alloc: Global, report: &ShardLoadReport<LoadFault>) -> Result<String, AllocError>
    ensures { IfOk result (λ line. string_bytes line ≡ loaded_text report.now) }
{
    let loaded = report.loaded;
    let missing = report.missing;
    let errored = report.errored.len();
    format!(in alloc; "recency loaded={loaded} missing={missing} errored={errored}")
}

fn saved_line(alloc: Global, saved: usize, failed: usize) -> Result<String, AllocError>
    ensures { IfOk result (λ line. string_bytes line ≡ counts_text saved failed) }
{
    format!(in alloc; "recency saved={saved} failed={failed}")
}

// Writes the line that reports a save.
fn write_saved<W: Write>(
    alloc: Global,
    saved: usize,
    failed: usize,
    writer: &mut W,
) -> Result<(), ReplayError>
    ensures written { OnOk result (Appends (W.contents writer.old) (W.contents writer.new) (ended (counts_text saved failed))) }
    ensures begun { OnErr result (HasBegun (W.contents writer.old) (W.contents writer.new) (ended (counts_text saved failed))) }
    ensures other { IfErr result IsOther }
{
    let line = saved_line(alloc, saved, failed)?;
    write_line(alloc, line.as_str(), writer)
}

// Writes a line, and hands it on.
fn write_line<W: Write>(alloc: Global, line: &str, writer: &mut W) -> Result<(), ReplayError>
    ensures written { OnOk result (Appends (W.contents writer.old) (W.contents writer.new) (ended line.now)) }
    ensures begun { OnErr result (HasBegun (W.contents writer.old) (W.contents writer.new) (ended line.now)) }
    ensures other { IfErr result IsOther }
{
    let mut waiting = Vec::new(alloc);
    waiting.extend_from_slice(line.as_bytes())?;
    waiting.push(b'\n')?;
    hand_on(&mut waiting, writer)
}
