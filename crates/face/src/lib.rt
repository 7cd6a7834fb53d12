// The answers as the C face tells them: plain numbers, 0 for what does not apply. No function here is exported.
#![tactic(auto)]

ghost use Rattle.std.specs.Prelude.{◌≡◌, MatchResult};
ghost use Rattle.judging.specs.Log.{judged};
ghost use Rattle.readings.specs.Answers.{ticks_told, completion_told, next_told};
ghost use Rattle.table.specs.Numbers.{table_told};
ghost use Rattle.face.specs.Face.{read_face, next_face, outcome_face, verdict_face};

use engine::NextDone;
use logs::Log;
use readings::NoSuchTask;
use rule::Run;
use table::TableRefusal;

// The structs of include/anduri.h: numbers, as C reads them.
#[repr(C)]
#[derive(Clone, Copy)]
pub struct MoveFace {
    pub refusal: u32,
    pub run: Run,
}

#[repr(C)]
#[derive(Clone, Copy)]
pub struct ReadFace {
    pub refusal: u32,
    pub value: u32,
}

#[repr(C)]
#[derive(Clone, Copy)]
pub struct NextFace {
    pub task: u32,
    pub at: u32,
}

#[repr(C)]
#[derive(Clone, Copy)]
pub struct OutcomeFace {
    pub refusal: u32,
    pub place: u32,
    pub end: u32,
}

#[repr(C)]
#[derive(Clone, Copy)]
pub struct VerdictFace {
    pub refusal: u32,
    pub place: u32,
    pub records: u32,
}

// ---- calls

// An answer's number, 0 where it is accepted. It is no `From`, since both types are std's.
pub fn number<E: Into<u32>>(answer: Result<(), E>) -> u32
    ensures { MatchResult answer (λ _. result ≡ 0) (λ refusal. E.converts refusal result) }
{
    match answer {
        Ok(()) => 0,
        Err(refusal) => refusal.into(),
    }
}

// An answer's number and run. A refusal holds no run, so the run before is a parameter, and this is no conversion.
pub fn move_of<E: Into<u32>>(before: Run, answer: Result<Run, E>) -> MoveFace
    ensures { MatchResult answer (λ run. result ≡ record { refusal = 0; run = run })
        (λ refusal. (result.run ≡ before) × E.converts refusal result.refusal) }
{
    match answer {
        Ok(run) => MoveFace { refusal: 0, run },
        Err(refusal) => MoveFace {
            refusal: refusal.into(),
            run: before,
        },
    }
}

// ---- readings

impl From<Result<u32, NoSuchTask>> for ReadFace {
    ghost from_gives = { λ ticks face. face ≡ read_face (ticks_told ticks) };

    fn from(ticks: Result<u32, NoSuchTask>) -> ReadFace {
        match ticks {
            Ok(value) => ReadFace { refusal: 0, value },
            Err(refusal) => ReadFace {
                refusal: refusal.into(),
                value: 0,
            },
        }
    }
}

impl From<Result<Option<u32>, NoSuchTask>> for ReadFace {
    ghost from_gives = { λ completion face. face ≡ read_face (completion_told completion) };

    fn from(completion: Result<Option<u32>, NoSuchTask>) -> ReadFace {
        match completion {
            Ok(Some(value)) => ReadFace { refusal: 0, value },
            Ok(None) => ReadFace {
                refusal: 0,
                value: 0,
            },
            Err(refusal) => ReadFace {
                refusal: refusal.into(),
                value: 0,
            },
        }
    }
}

impl From<Option<NextDone>> for NextFace {
    ghost from_gives = { λ next face. face ≡ next_face (next_told next) };

    fn from(next: Option<NextDone>) -> NextFace {
        match next {
            Some(next) => NextFace {
                task: next.task,
                at: next.time,
            },
            None => NextFace { task: 0, at: 0 },
        }
    }
}

// ---- tables and logs

impl From<Result<u32, TableRefusal>> for OutcomeFace {
    ghost from_gives = { λ answer face. face ≡ outcome_face (table_told answer) };

    fn from(answer: Result<u32, TableRefusal>) -> OutcomeFace {
        match answer {
            Ok(end) => OutcomeFace {
                refusal: 0,
                place: 0,
                end,
            },
            Err(refusal) => OutcomeFace {
                refusal: refusal.number(),
                place: refusal.place(),
                end: 0,
            },
        }
    }
}

// What a log is judged to be, and how many records it has.
pub fn verdict_on(log: &[u8]) -> VerdictFace
    ensures { result ≡ verdict_face log.now (judged log.now) }
{
    match Log::judged(log) {
        Ok(log) => VerdictFace {
            refusal: 0,
            place: 0,
            records: log.record_count() as u32,
        },
        Err(fault) => VerdictFace {
            refusal: fault.number(),
            place: fault.block() as u32,
            records: 0,
        },
    }
}
