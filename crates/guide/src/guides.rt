ghost use Rattle.std.specs.Prelude.{◌≡◌, ◌≤◌, length, take};
ghost use Rattle.meaning.specs.Limits.{format};
ghost use Rattle.guidance.specs.Guides.{refused_start, start, next};
ghost use Rattle.guidance.specs.Guided.{asked_for};
ghost use Rattle.guide.specs.declared.guides.Stage.TheVariants.{Going};
ghost use Rattle.guide.specs.GuideHeld.{fluents_of, request_of, guide_of, started_of, turn_of, Begins, KeptGuide, OwnCopy};

use super::calls::{asked, at_start, call, none_asked};
use super::going::NOT_VERIFIED;
use super::sensed::Fluents;
use glintstring::judging::judge;
use guidance::Told;
use meaning::Answer;
use parsing::limits;
use reading::marks::Marks;
use verdicts::answers;
use verdicts::answers::uncounted;

// A guide was refused, with the answer that it gives; or is on its way, with the action whose readings the next call brings, the position in the plan and what is known; or
// has come to the plan's end, with what is known there.
#[derive(Clone, Copy)]
pub enum Stage {
    Refusing(Answer),
    Going {
        action: Option<usize>,
        at: usize,
        marks: Marks,
    },
    Ended(Marks),
}

// A guide: its own copy of the request, which is the first `length` bytes of the row, and how far it has come.
// Kept: no heap is used, so that the copy has its length beside it.
#[derive(Clone, Copy)]
pub struct Guide {
    request: [u8; limits::REQUEST],
    length: usize,
    stage: Stage,
}

// What a start gives, and what a call gives.
#[derive(Clone, Copy)]
pub struct Started {
    pub guide: Guide,
    pub answer: Answer,
}

#[derive(Clone, Copy)]
pub struct Turn {
    pub guide: Guide,
    pub told: Told,
}

// A row with these bytes at its start.
fn copied(request: &[u8]) -> [u8; limits::REQUEST]
    requires { length request.now ≤ format.request }
    ensures { take (length request.now) result ≡ request.now }
{
    let mut row = [0u8; limits::REQUEST];
    row[..request.len()].copy_from_slice(request);
    row
}

// The guide of a start that is refused keeps the answer, and no request.
fn refused_start(answer: Answer) -> Started
    ensures result_value { started_of result ≡ refused_start answer }
    ensures answer_value { result.answer ≡ answer }
{
    Started {
        guide: Guide {
            request: [0u8; limits::REQUEST],
            length: 0,
            stage: Stage::Refusing(answer),
        },
        answer,
    }
}

// The guide of a request that the walk verifies, with the walk's answer.
fn begun(request: &[u8], answer: Answer) -> Started
    requires { length request.now ≤ format.request }
    ensures answer_value { result.answer ≡ answer }
    ensures guide_value { request_of result.guide ≡ request.now }
    ensures begins { Begins request.now (guide_of result.guide) }
{
    let row = copied(request);
    let start = at_start(request);
    let marks = start.marks;
    Started {
        guide: Guide {
            request: row,
            length: request.len(),
            stage: Stage::Going {
                action: None,
                at: start.at,
                marks,
            },
        },
        answer,
    }
}

// A call of a guide that is on its way. A refusal hands back what was given.
fn moved(g: Guide, action: Option<usize>, at: usize, known: &Marks, readings: &[u8]) -> Turn
    requires { g.stage ≡ Going action at known.now }
    ensures result_value { turn_of result ≡ next format (guide_of g) readings.now }
    ensures kept_guide { KeptGuide g result }
{
    let request = g.request;
    let length = g.length;
    let own = &request[..length.min(limits::REQUEST)];
    let step = call(own, action, at, known, readings);
    let told = step.told;
    let marks = step.marks;
    let stage = match told {
        Told::Do(_) => Stage::Going {
            action: step.action,
            at: step.at,
            marks,
        },
        Told::Done => Stage::Ended(marks),
        Told::Refused(_) => g.stage,
    };
    Turn {
        guide: Guide {
            request,
            length,
            stage,
        },
        told,
    }
}

impl Guide {
    // The start, with a request and a budget (FORMAT 25.3 to 25.5).
    pub fn start(request: &[u8], budget: u32) -> Started
        ensures given { started_of result ≡ start format request.now budget }
        ensures copied { OwnCopy request.now result }
    {
        let mut state = [limits::UNKNOWN_MARK; limits::FLUENTS];
        let judged = judge(request, &mut state, budget);
        let answer = judged.answer;
        let number = answer.number;
        if number == answers::VERIFIED {
            return begun(request, answer);
        }
        if number <= answers::BUDGET_SPENT {
            return refused_start(uncounted(NOT_VERIFIED, answers::NEITHER_INPUT, 0));
        }
        refused_start(answer)
    }

    // A call (FORMAT 25.6 to 25.15). The guide that it hands back is the one for the next call.
    pub fn next(self, readings: &[u8]) -> Turn
        ensures given { turn_of result ≡ next format (guide_of self) readings.now }
        ensures kept { KeptGuide self result }
    {
        match self.stage {
            Stage::Refusing(answer) => Turn {
                guide: self,
                told: Told::Refused(answer),
            },
            Stage::Going { action, at, marks } => moved(self, action, at, &marks, readings),
            Stage::Ended(_) => Turn {
                guide: self,
                told: Told::Done,
            },
        }
    }

    // The fluents whose readings the next call brings, ascending (FORMAT 25.7, 25.51).
    pub fn asks(self) -> Fluents
        ensures { result ≡ fluents_of (asked_for (guide_of self)) }
    {
        match self.stage {
            Stage::Going { action, at, marks } => {
                let request = self.request;
                let own = &request[..self.length.min(limits::REQUEST)];
                asked(own, action, at, &marks)
            }
            Stage::Refusing(_) => none_asked(),
            Stage::Ended(_) => none_asked(),
        }
    }
}
