//! Looks.
use gateway_rows::looks::look_row;
use gateway_types::looks::{Found, Look, LookVerdict, Permit, Reuse};
use std::io;

const FOUNDS: [Found; 3] = [Found::Nothing, Found::InFlight, Found::Whole];

const PERMITS: [Permit; 3] = [Permit::None, Permit::Wait, Permit::Write];

pub const REUSES: [Reuse; 5] = [
    Reuse::Bypass,
    Reuse::Fresh,
    Reuse::Stale,
    Reuse::WhileRevalidating,
    Reuse::AfterValidation,
];

pub const YES: [bool; 2] = [false, true];

pub fn letter(verdict: LookVerdict) -> char {
    match verdict {
        LookVerdict::Hit => 'a',
        LookVerdict::HitAndValidate => 'b',
        LookVerdict::Collapse => 'c',
        LookVerdict::LookPast => 'd',
        LookVerdict::Pass => 'e',
        LookVerdict::Unavailable => 'f',
        LookVerdict::Unstored => 'g',
        LookVerdict::Wait => 'h',
        LookVerdict::Conditional => 'i',
        LookVerdict::Full => 'j',
    }
}

fn shows(rt: &HostRuntime, found: Found, reuse: Reuse, permit: Permit) -> io::Result<()> {
    for fresh in YES {
        for past in YES {
            for only_if_cached in YES {
                for predicted in YES {
                    for too_old in YES {
                        let look = Look {
                            found,
                            reuse,
                            fresh,
                            past,
                            permit,
                            only_if_cached,
                            predicted,
                            too_old,
                        };
                        print!(rt; "{}", letter(look_row(&look)))?;
                    }
                }
            }
        }
    }
    Ok(())
}

pub fn show(rt: &HostRuntime) -> io::Result<()> {
    for found in FOUNDS {
        for reuse in REUSES {
            for permit in PERMITS {
                shows(rt, found, reuse, permit)?;
            }
        }
        println!(rt; "")?;
    }
    Ok(())
}
