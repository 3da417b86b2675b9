//! Waits.
use crate::looks::{REUSES, YES};
use gateway_rows::waits::{share_row, wait_row};
use gateway_types::looks::LookVerdict;
use gateway_types::waits::{Ended, ShareVerdict, Sharing, WaitVerdict, Waiting};
use std::io;

const ENDS: [Option<Ended>; 7] = [
    None,
    Some(Ended::Done),
    Some(Ended::GiveUp),
    Some(Ended::Dangling),
    Some(Ended::TransientError),
    Some(Ended::AgeTimeout),
    Some(Ended::WaitTimeout),
];

const VERDICTS: [LookVerdict; 10] = [
    LookVerdict::Hit,
    LookVerdict::HitAndValidate,
    LookVerdict::Collapse,
    LookVerdict::LookPast,
    LookVerdict::Pass,
    LookVerdict::Unavailable,
    LookVerdict::Unstored,
    LookVerdict::Wait,
    LookVerdict::Conditional,
    LookVerdict::Full,
];

fn letter(verdict: WaitVerdict) -> char {
    match verdict {
        WaitVerdict::Share => 'a',
        WaitVerdict::Alone => 'b',
        WaitVerdict::Again => 'c',
        WaitVerdict::Wait => 'd',
    }
}

fn share_letter(verdict: ShareVerdict) -> char {
    match verdict {
        ShareVerdict::AsFound => 'a',
        ShareVerdict::StaleOnError => 'b',
        ShareVerdict::Alone => 'c',
        ShareVerdict::Generated => 'd',
    }
}

fn waits(rt: &HostRuntime, ended: Option<Ended>) -> io::Result<()> {
    for shares in YES {
        for over in YES {
            for moved in YES {
                for refused in YES {
                    let waiting = Waiting {
                        shares,
                        over,
                        moved,
                        refused,
                        ended,
                    };
                    print!(rt; "{}", letter(wait_row(&waiting)))?;
                }
            }
        }
    }
    Ok(())
}

pub fn show(rt: &HostRuntime) -> io::Result<()> {
    for ended in ENDS {
        waits(rt, ended)?;
    }
    println!(rt; "")?;
    for look in VERDICTS {
        for reuse in REUSES {
            for stale_answers in YES {
                for is_response in YES {
                    let sharing = Sharing {
                        look,
                        reuse,
                        stale_answers,
                        is_response,
                    };
                    print!(rt; "{}", share_letter(share_row(&sharing)))?;
                }
            }
        }
    }
    println!(rt; "")
}
