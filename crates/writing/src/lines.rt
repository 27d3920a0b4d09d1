// A line behind those that are there. Where there are too many, nothing more is written.
ghost use Rattle.std.specs.Prelude.{◌≡◌, [], ◌∷◌, ◌++◌, ◌+◌, ◌≤◌, ◌<◌, length};
ghost use Rattle.std.proofs.lemmas.List.Edits.{sets};
ghost use Rattle.meaning.specs.Limits;
ghost use Rattle.meaning.specs.Limits.{format};
ghost use Rattle.meaning.specs.Requests.{done, item, act};
ghost use Rattle.meaning.specs.Derivations.{knows, literals_of, goals_of};
ghost use Rattle.meaning.specs.Layouts.{list_written, conclusion_written, numbers_written};
ghost use Rattle.meaning.specs.Schemes.{line_of};
ghost use Rattle.parsing.specs.RuleKinds.{rule_number};
ghost use Rattle.steps.specs.Held.{plan_in, request_in};
ghost use Rattle.steps.specs.AtHand.{Marked};
ghost use Rattle.steps.specs.Rests.{Position, rest_at};
ghost use Rattle.writing.specs.Progress.{add, standing, Underway};
ghost use Rattle.meaning.specs.declared.Form.TheVariants.{Flags};

use super::cites::Cites;
use super::rests::put_rest;
use super::room::{put, put_known, put_number, put_part};
use finding::branches::sequence_of;
use meaning::Form;
use parsing::limits;
use parsing::rule_kinds::Rule;
use parsing::shapes::OfFlags;
use reading::marks::Marks;
use reading::notes;
use reading::notes::get;
use steps::request::Request;

// The number of lines that are there, and where they end.
#[derive(Clone, Copy)]
pub struct Progress {
    pub lines: usize,
    pub end: usize,
}

// The number of citations, and each in two bytes. It gives the place after them.
fn put_cites(cites: &Cites, room: &mut [u8], q: usize) -> usize
    requires q_bound { q < 140737488355328 }
    ensures after { result ≡ q + (1 + length (numbers_written cites.now)) }
    ensures within { result ≤ q + 129 }
    ensures written { room.new ≡ sets room.old q (length cites.now ∷ numbers_written cites.now) }
{
    let lines = cites.lines();
    put(room, q, lines.len() as u8);
    let mut p = q + 1;
    for line in lines {
        put_number(room, p, usize::from(*line));
        p += 2;
    }
    p
}

// What a state knows as the conclusion, and behind it a rule that cites nothing. It gives the place after them.
fn put_uncited(marks: &Marks, rule: Rule, room: &mut [u8], q: usize) -> usize
    requires marked { Marked marks.now }
    requires q_bound { q < 140737488355328 }
    ensures after { result ≡ q + length (list_written (literals_of marks.now) ++ (rule_number rule ∷ 0 ∷ [])) }
    ensures within { result ≤ q + 3 + format.fluents }
    ensures written { room.new ≡ sets room.old q (list_written (literals_of marks.now) ++ (rule_number rule ∷ 0 ∷ [])) }
{
    let ruled = put_known(marks, room, q);
    put(room, ruled, u8::from(rule));
    put(room, ruled + 1, 0);
    ruled + 2
}

// The goals as the conclusion, copied from the request. It gives the place after them.
fn put_asked(r: &Request<OfFlags>, room: &mut [u8], q: usize) -> usize
    requires { q < 140737488355328 }
    ensures after { result ≡ q + length (conclusion_written (goals_of (request_in Flags r.now.bytes.now r.now.notes.now))) }
    ensures within { result ≤ q + 256 }
    ensures written { room.new ≡ sets room.old q (conclusion_written (goals_of (request_in Flags r.now.bytes.now r.now.notes.now))) }
{
    let goals = get(r.notes, notes::GOALS);
    let end = sequence_of(Form::Flags, r.bytes, goals);
    put_part(r.bytes, goals, end, room, q);
    q + (end - goals)
}

// The line by rule 1 of the empty plan.
pub fn put_empty(marks: &Marks, room: &mut [u8], progress: &mut Progress)
    requires marked { Marked marks.now }
    requires underway { Underway progress.old }
    ensures stands { standing progress.new room.new ≡ add (standing progress.old room.old) (line_of marks.now done (knows (literals_of marks.now)) Limits.empty_rule [] ∷ []) }
    ensures going { Underway progress.new }
{
    if limits::LINES < progress.lines {
        return;
    }
    let plan = put_known(marks, room, progress.end);
    put_number(room, plan, 0);
    progress.end = put_uncited(marks, Rule::Empty, room, plan + 2);
    progress.lines += 1;
}

// The line by rule 2 of one action, after which the second state is known.
pub fn put_action(a: u8, marks: &Marks, after: &Marks, room: &mut [u8], progress: &mut Progress)
    requires marked { Marked marks.now }
    requires marked_2 { Marked after.now }
    requires underway { Underway progress.old }
    ensures stands { standing progress.new room.new ≡ add (standing progress.old room.old) (line_of marks.now (item (act 0 a) done) (knows (literals_of after.now)) Limits.action_rule [] ∷ []) }
    ensures going { Underway progress.new }
{
    if limits::LINES < progress.lines {
        return;
    }
    let plan = put_known(marks, room, progress.end);
    put_number(room, plan, 1);
    put(room, plan + 2, a);
    progress.end = put_uncited(after, Rule::Action, room, plan + 3);
    progress.lines += 1;
}

// The line by a rule that concludes the goals, of what is left from a position on.
pub fn put_goals(
    r: &Request<OfFlags>,
    at: usize,
    marks: &Marks,
    rule: u8,
    cites: &Cites,
    room: &mut [u8],
    progress: &mut Progress,
)
    requires position { Position (plan_in Flags r.now.bytes.now r.now.notes.now) at }
    requires marked { Marked marks.now }
    requires underway { Underway progress.old }
    ensures stands { standing progress.new room.new ≡ add (standing progress.old room.old) (line_of marks.now (rest_at (plan_in Flags r.now.bytes.now r.now.notes.now) at) (goals_of (request_in Flags r.now.bytes.now r.now.notes.now)) rule cites.now ∷ []) }
    ensures going { Underway progress.new }
{
    if limits::LINES < progress.lines {
        return;
    }
    let plan = put_known(marks, room, progress.end);
    let concluded = put_rest(r, at, room, plan);
    let ruled = put_asked(r, room, concluded);
    put(room, ruled, rule);
    progress.end = put_cites(cites, room, ruled + 1);
    progress.lines += 1;
}
