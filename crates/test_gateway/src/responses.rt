//! Responses.
use crate::looks::YES;
use gateway_rows::responses::{may_store, response_row, revalidate_row};
use gateway_types::responses::{Heard, Keeping, ResponseVerdict, RevalidateVerdict, Revalidation};
use gateway_types::states::Fetch;
use std::io;

const FETCHES: [Fetch; 5] = [
    Fetch::Pass,
    Fetch::Unstored,
    Fetch::Full,
    Fetch::Conditional,
    Fetch::Unconditional,
];

const STATUSES: [u16; 9] = [200, 304, 399, 400, 403, 404, 410, 500, 503];

fn letter(verdict: ResponseVerdict) -> char {
    match verdict {
        ResponseVerdict::Bad => 'a',
        ResponseVerdict::RelayAndPurge => 'b',
        ResponseVerdict::RelayUnstored => 'c',
        ResponseVerdict::StaleOnError => 'd',
        ResponseVerdict::Relay => 'e',
        ResponseVerdict::Revalidate => 'f',
        ResponseVerdict::Store => 'g',
        ResponseVerdict::RelayAndRemove => 'h',
    }
}

fn revalidate_letter(verdict: RevalidateVerdict) -> char {
    match verdict {
        RevalidateVerdict::Again => 'a',
        RevalidateVerdict::FreshenAndAnswer => 'b',
        RevalidateVerdict::FreshenAndRelay => 'c',
        RevalidateVerdict::Answer => 'd',
        RevalidateVerdict::Relay => 'e',
    }
}

fn responses(rt: &HostRuntime, fetch: Fetch, status: u16) -> io::Result<()> {
    for unasked in YES {
        for stale_answers in YES {
            for good in YES {
                for revalidates in YES {
                    for stores in YES {
                        let heard = Heard {
                            fetch,
                            status,
                            unasked,
                            stale_answers,
                            good,
                            revalidates,
                            stores,
                        };
                        print!(rt; "{}", letter(response_row(&heard)))?;
                    }
                }
            }
        }
    }
    Ok(())
}

fn revalidations(rt: &HostRuntime) -> io::Result<()> {
    for status in STATUSES {
        for other in YES {
            for may_freshen in YES {
                let revalidation = Revalidation {
                    status,
                    other,
                    may_freshen,
                };
                print!(rt; "{}", revalidate_letter(revalidate_row(&revalidation)))?;
            }
        }
    }
    println!(rt; "")
}

fn keepings(rt: &HostRuntime) -> io::Result<()> {
    for kept in YES {
        for purged in YES {
            for superseded in YES {
                for too_long in YES {
                    for too_much in YES {
                        let keeping = Keeping {
                            kept,
                            purged,
                            superseded,
                            too_long,
                            too_much,
                        };
                        print!(rt; "{}", if may_store(&keeping) { 'y' } else { 'n' })?;
                    }
                }
            }
        }
    }
    println!(rt; "")
}

pub fn show(rt: &HostRuntime) -> io::Result<()> {
    for fetch in FETCHES {
        for status in STATUSES {
            responses(rt, fetch, status)?;
        }
        println!(rt; "")?;
    }
    revalidations(rt)?;
    keepings(rt)
}
