// The structs for C, made of what the functions called answer: beside an answer the fault and its line are 0;
// beside a refusal's number and line, all else.
ghost use Rattle.std.specs.Prelude.{◌≡◌};
ghost use Rattle.definitions.specs.BookLines.{no_header};
ghost use Rattle.definitions.specs.Faults.{number_of};
ghost use Rattle.definitions.specs.NetworkText.{no_counts};
ghost use Rattle.definitions.specs.Said.{answer_said, result_said, no_span};
ghost use Rattle.arcs.specs.Spans.{span_said};
ghost use Rattle.trees.specs.Answers.{no_walk};
ghost use Rattle.transcripts.specs.Answers.{no_tally};
ghost use Rattle.network.specs.Answers.{so_far, came_to, build_said};
ghost use Rattle.joining.specs.Answers as joining;
ghost use Rattle.fulgwerz.specs.Answers.{read_answer, leaf_answer, transcript_answer, count_answer, part_answer};
ghost use Rattle.fulgwerz.specs.Answers.{network_answer, join_answer, build_answer};

use crate::{
    BuildAnswer, CountAnswer, JoinAnswer, LeafAnswer, NetworkAnswer, PartAnswer, ReadAnswer,
    TranscriptAnswer,
};
use arcs::Span;
use combinations::ByPhone;
use definitions::{Counts, Header, Refusal};
use joining::JoinedCounts;
use network::{Build, Totals};
use transcripts::Tally;
use trees::Walked;

// What stands beside a refusal in place of a header, and of counts.
const NO_HEADER: Header = Header {
    half: 0,
    states: 0,
    phones: 0,
    classes: 0,
    nodes: 0,
};

const NO_COUNTS: Counts = Counts {
    states: 0,
    metastates: 0,
    arcs: 0,
};

// What a refusal says: the number of its fault, and its line.
#[derive(Clone, Copy)]
struct Cause {
    fault: u32,
    line: usize,
}

impl From<Refusal> for Cause {
    ghost from_gives = { λ refusal cause.
        (cause.fault ≡ number_of refusal.fault) × (cause.line ≡ refusal.line) };

    fn from(refusal: Refusal) -> Cause {
        Cause {
            fault: refusal.fault.into(),
            line: refusal.line,
        }
    }
}

// Each struct is a type of its own in C, so each is made by its own conversion.
impl From<Result<Header, Refusal>> for ReadAnswer {
    ghost from_gives = { λ read answer. answer ≡ read_answer (result_said (λ header. header) no_header read) };

    fn from(read: Result<Header, Refusal>) -> ReadAnswer {
        match read {
            Ok(header) => ReadAnswer {
                fault: 0,
                line: 0,
                header,
            },
            Err(refusal) => {
                let Cause { fault, line } = refusal.into();
                ReadAnswer {
                    fault,
                    line,
                    header: NO_HEADER,
                }
            }
        }
    }
}

impl From<Result<Walked, Refusal>> for LeafAnswer {
    ghost from_gives = { λ walk answer. answer ≡ leaf_answer (result_said (λ walked. walked) no_walk walk) };

    fn from(walk: Result<Walked, Refusal>) -> LeafAnswer {
        match walk {
            Ok(walked) => LeafAnswer {
                fault: 0,
                line: 0,
                leaf: walked.leaf,
                questions: walked.questions,
            },
            Err(refusal) => {
                let Cause { fault, line } = refusal.into();
                LeafAnswer {
                    fault,
                    line,
                    leaf: 0,
                    questions: 0,
                }
            }
        }
    }
}

impl From<Result<Tally, Refusal>> for TranscriptAnswer {
    ghost from_gives = { λ transcript answer.
        answer ≡ transcript_answer (result_said (λ tally. tally) no_tally transcript) };

    fn from(transcript: Result<Tally, Refusal>) -> TranscriptAnswer {
        match transcript {
            Ok(tally) => TranscriptAnswer {
                fault: 0,
                line: 0,
                count: tally.models,
                questions: tally.questions,
            },
            Err(refusal) => {
                let Cause { fault, line } = refusal.into();
                TranscriptAnswer {
                    fault,
                    line,
                    count: 0,
                    questions: 0,
                }
            }
        }
    }
}

// How many bytes or words there are, and how many combinations.
impl From<Result<usize, Refusal>> for CountAnswer {
    ghost from_gives = { λ counted answer. answer ≡ count_answer (result_said (λ count. count) 0 counted) };

    fn from(counted: Result<usize, Refusal>) -> CountAnswer {
        match counted {
            Ok(count) => CountAnswer {
                fault: 0,
                line: 0,
                count,
            },
            Err(refusal) => {
                let Cause { fault, line } = refusal.into();
                CountAnswer {
                    fault,
                    line,
                    count: 0,
                }
            }
        }
    }
}

impl From<Result<ByPhone, Refusal>> for CountAnswer {
    ghost from_gives = { λ combined answer. answer ≡ count_answer (result_said (λ by. by.count) 0 combined) };

    fn from(combined: Result<ByPhone, Refusal>) -> CountAnswer {
        match combined {
            Ok(by_phone) => CountAnswer {
                fault: 0,
                line: 0,
                count: by_phone.count,
            },
            Err(refusal) => {
                let Cause { fault, line } = refusal.into();
                CountAnswer {
                    fault,
                    line,
                    count: 0,
                }
            }
        }
    }
}

impl From<Result<Span, Refusal>> for PartAnswer {
    ghost from_gives = { λ part answer. answer ≡ part_answer (result_said span_said no_span part) };

    fn from(part: Result<Span, Refusal>) -> PartAnswer {
        match part {
            Ok(span) => PartAnswer {
                fault: 0,
                line: 0,
                start: span.start,
                length: span.length,
            },
            Err(refusal) => {
                let Cause { fault, line } = refusal.into();
                PartAnswer {
                    fault,
                    line,
                    start: 0,
                    length: 0,
                }
            }
        }
    }
}

impl From<Result<Counts, Refusal>> for NetworkAnswer {
    ghost from_gives = { λ read answer. answer ≡ network_answer (result_said (λ counts. counts) no_counts read) };

    fn from(read: Result<Counts, Refusal>) -> NetworkAnswer {
        match read {
            Ok(counts) => NetworkAnswer {
                fault: 0,
                line: 0,
                counts,
            },
            Err(refusal) => {
                let Cause { fault, line } = refusal.into();
                NetworkAnswer {
                    fault,
                    line,
                    counts: NO_COUNTS,
                }
            }
        }
    }
}

// How many joined states and arcs there are.
impl From<Result<JoinedCounts, Refusal>> for JoinAnswer {
    ghost from_gives = { λ joined answer.
        answer ≡ join_answer (result_said (λ counted. counted) joining.no_counts joined) };

    fn from(joined: Result<JoinedCounts, Refusal>) -> JoinAnswer {
        match joined {
            Ok(counted) => JoinAnswer {
                fault: 0,
                line: 0,
                states: counted.states,
                arcs: counted.arcs,
            },
            Err(refusal) => {
                let Cause { fault, line } = refusal.into();
                JoinAnswer {
                    fault,
                    line,
                    states: 0,
                    arcs: 0,
                }
            }
        }
    }
}

// How far a build came.
fn so_far(totals: Totals, finished: bool) -> BuildAnswer
    ensures { result ≡ build_answer (answer_said (so_far finished totals)) }
{
    BuildAnswer {
        fault: 0,
        line: 0,
        finished,
        turns: totals.turns,
        counts: totals.counts,
    }
}

impl From<Build> for BuildAnswer {
    ghost from_gives = { λ built answer. answer ≡ build_answer (answer_said (came_to built)) };

    fn from(built: Build) -> BuildAnswer {
        match built {
            Build::Finished(totals) => so_far(totals, true),
            Build::Stopped(totals) => so_far(totals, false),
        }
    }
}

impl From<Result<Build, Refusal>> for BuildAnswer {
    ghost from_gives = { λ build answer. answer ≡ build_answer (build_said build) };

    fn from(build: Result<Build, Refusal>) -> BuildAnswer {
        match build {
            Ok(built) => built.into(),
            Err(refusal) => {
                let Cause { fault, line } = refusal.into();
                BuildAnswer {
                    fault,
                    line,
                    finished: false,
                    turns: 0,
                    counts: NO_COUNTS,
                }
            }
        }
    }
}
