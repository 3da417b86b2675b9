//! Bodies and connections.
use crate::looks::YES;
use gateway_rows::bodies::{body_row, client_row, closed_row, end_row, is_reusable};
use gateway_types::bodies::{
    BodyEnd, BodyVerdict, ClientVerdict, Closed, ClosedVerdict, Connection, EndVerdict, Leaving,
    Piece, Why,
};
use gateway_types::states::Origin;
use std::io;

const ORIGINS: [Origin; 4] = [
    Origin::Idle,
    Origin::AwaitingHead,
    Origin::Storing,
    Origin::Relaying,
];

const WHYS: [Why; 4] = [Why::Clean, Why::Failed, Why::Timeout, Why::Unused];

fn body_letter(verdict: BodyVerdict) -> char {
    match verdict {
        BodyVerdict::Tail => 'a',
        BodyVerdict::Truncate => 'b',
        BodyVerdict::Relay => 'c',
        BodyVerdict::BeginTail => 'd',
        BodyVerdict::Store => 'e',
    }
}

fn end_letter(verdict: EndVerdict) -> char {
    match verdict {
        EndVerdict::Complete => 'a',
        EndVerdict::EndTail => 'b',
        EndVerdict::Truncate => 'c',
        EndVerdict::Finish => 'd',
    }
}

fn closed_letter(verdict: ClosedVerdict) -> char {
    match verdict {
        ClosedVerdict::SendAgain => 'a',
        ClosedVerdict::Timeout => 'b',
        ClosedVerdict::NoAnswer => 'c',
        ClosedVerdict::End => 'd',
        ClosedVerdict::Truncate => 'e',
    }
}

fn client_letter(verdict: ClientVerdict) -> char {
    match verdict {
        ClientVerdict::Nothing => 'a',
        ClientVerdict::GoesOn => 'b',
        ClientVerdict::Truncate => 'c',
        ClientVerdict::CloseOrigin => 'd',
    }
}

fn pieces(rt: &HostRuntime, origin: Origin) -> io::Result<()> {
    for tailed in YES {
        for grows_past in YES {
            for reads in YES {
                for unread_past in YES {
                    for refused in YES {
                        let piece = Piece {
                            origin,
                            tailed,
                            grows_past,
                            reads,
                            unread_past,
                            refused,
                        };
                        print!(rt; "{}", body_letter(body_row(&piece)))?;
                    }
                }
            }
        }
    }
    println!(rt; "")
}

fn ends(rt: &HostRuntime) -> io::Result<()> {
    for origin in ORIGINS {
        for tailed in YES {
            for refused in YES {
                let end = BodyEnd {
                    origin,
                    tailed,
                    refused,
                };
                print!(rt; "{}", end_letter(end_row(&end)))?;
            }
        }
    }
    println!(rt; "")
}

fn closes(rt: &HostRuntime, origin: Origin, why: Why) -> io::Result<()> {
    for close_delimited in YES {
        for idempotent in YES {
            for spoke in YES {
                for body_sent in YES {
                    for sent_again in YES {
                        let closed = Closed {
                            origin,
                            why,
                            close_delimited,
                            idempotent,
                            spoke,
                            body_sent,
                            sent_again,
                        };
                        print!(rt; "{}", closed_letter(closed_row(&closed)))?;
                    }
                }
            }
        }
    }
    Ok(())
}

fn clients(rt: &HostRuntime) -> io::Result<()> {
    for origin in ORIGINS {
        for tailed in YES {
            for owes_body in YES {
                let leaving = Leaving {
                    origin,
                    tailed,
                    owes_body,
                };
                print!(rt; "{}", client_letter(client_row(&leaving)))?;
            }
        }
    }
    println!(rt; "")
}

fn connections(rt: &HostRuntime) -> io::Result<()> {
    for response_closes in YES {
        for whole_response in YES {
            for bytes_left in YES {
                for owes_body in YES {
                    let connection = Connection {
                        response_closes,
                        whole_response,
                        bytes_left,
                        owes_body,
                    };
                    print!(rt; "{}", if is_reusable(&connection) { 'y' } else { 'n' })?;
                }
            }
        }
    }
    println!(rt; "")
}

pub fn show(rt: &HostRuntime) -> io::Result<()> {
    for origin in ORIGINS {
        pieces(rt, origin)?;
    }
    ends(rt)?;
    for origin in ORIGINS {
        for why in WHYS {
            closes(rt, origin, why)?;
        }
        println!(rt; "")?;
    }
    clients(rt)?;
    connections(rt)
}
