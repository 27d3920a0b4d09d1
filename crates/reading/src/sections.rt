ghost use Rattle.std.specs.Prelude.{◌≡◌, ◌≤◌, ◌<◌, ℕ, length};
ghost use Rattle.meaning.specs.Limits.{format};
ghost use Rattle.meaning.specs.Reading.{section_at};
ghost use Rattle.parsing.specs.Read.{numbered};
ghost use Rattle.reading.specs.Noted;
ghost use Rattle.reading.specs.Noted.{line_at, line_read, line_noted, count_slot, effects_slot, executability_slot, knowledge_slot, effects_counted, executability_counted, knowledge_counted, section_noted, three_sections, noting, outcome};

use super::notes;
use super::notes::{Line, Notes, append_line, note_pair, put};
use parsing::faults::{Fault, Refusal};
use parsing::inputs::Input;
use parsing::limits;
use parsing::shapes::Shape;
use parsing::table_lines::knowledge_at;

// One of sections 3, 4 and 5.
pub trait Section: Drop {
    // The slot that has how many lines it has.
    const COUNT: usize;

    ghost COUNT: { ℕ };

    // Which of them it is.
    ghost section: { Noted.Section };

    // Kept: parameters. A place in an input is all that a reader needs; more is only repeated by the implementations.
    // A line: its action.
    fn line_at<S: Shape>(input: &Input<S>, p: usize) -> Result<(usize, usize), Fault>
        ensures { numbered result ≡ line_read section (line_at S.FORM section input.now.fluents input.now.actions input.now.bytes.now p) };

    // Kept: parameters, since each implementation has to repeat the trait's.
    // A line is noted; `last` is its action's last line so far.
    fn note_line(last: u8, line: &Line, t: &mut Notes)
        requires { section ≡ Noted.Section.knowledge → line.now.second < format.fluents }
        ensures { t.new ≡ line_noted section last line.now.number line.now.place line.now.action line.now.second t.old };

    ghost count_law: { COUNT ≡ count_slot section };
}

#[derive(Clone, Copy)]
pub struct Effects;

#[derive(Clone, Copy)]
pub struct Executability;

#[derive(Clone, Copy)]
pub struct Knowledge;

impl Section for Effects {
    const COUNT: usize = notes::COUNT_OF_EFFECTS;

    ghost COUNT = { effects_slot };

    ghost section = { Noted.Section.effects };

    fn line_at<S: Shape>(input: &Input<S>, p: usize) -> Result<(usize, usize), Fault> {
        input.effect_at(p)
    }

    fn note_line(last: u8, line: &Line, t: &mut Notes) {
        append_line(t, notes::EFFECTS, last, line)
    }

    ghost count_law = { effects_counted };
}

impl Section for Executability {
    const COUNT: usize = notes::COUNT_OF_EXECUTABILITY;

    ghost COUNT = { executability_slot };

    ghost section = { Noted.Section.executability };

    fn line_at<S: Shape>(input: &Input<S>, p: usize) -> Result<(usize, usize), Fault> {
        input.executability_at(p)
    }

    fn note_line(last: u8, line: &Line, t: &mut Notes) {
        append_line(t, notes::EXECUTABILITY, last, line)
    }

    ghost count_law = { executability_counted };
}

impl Section for Knowledge {
    const COUNT: usize = notes::COUNT_OF_KNOWLEDGE;

    ghost COUNT = { knowledge_slot };

    ghost section = { Noted.Section.knowledge };

    fn line_at<S: Shape>(input: &Input<S>, p: usize) -> Result<(usize, usize), Fault> {
        knowledge_at(input.fluents, input.actions, input.bytes, p)
    }

    fn note_line(last: u8, line: &Line, t: &mut Notes) {
        note_pair(t, line.action, line.second)
    }

    ghost count_law = { knowledge_counted };
}

// A section: a count byte, then as many lines. Each action's last line so far is in `last`; once the section is read nobody asks for it.
pub fn section_at<C: Section, S: Shape>(
    input: &Input<S>,
    start: usize,
    t: &mut Notes,
) -> Result<usize, Fault>
    requires m_le_actions { input.now.actions ≤ format.actions }
    requires s_len_bound { length input.now.bytes.now ≤ format.request }
    ensures { outcome result t.new ≡ noting (section_noted C.section) (section_at (line_at S.FORM C.section input.now.fluents input.now.actions input.now.bytes.now) input.now.bytes.now start) t.old }
{
    let s = input.bytes;
    if s.len() <= start {
        return Err(Refusal::EndsTooSoon.at(s.len()));
    }
    let count = usize::from(s[start]);
    put(t, C::COUNT, count);
    let mut p = start + 1;
    let mut last = [0u8; limits::ACTIONS];
    for k in 0..count {
        let (a, after) = C::line_at(input, p)?;
        let line = Line {
            number: k + 1,
            place: p,
            action: a,
            second: usize::from(s[p + 1]),
        };
        C::note_line(last[a], &line, t);
        last[a] = (k + 1) as u8;
        p = after;
    }
    Ok(p)
}

// Sections 3 to 5.
pub fn three_sections<S: Shape>(input: &Input<S>, p: usize, t: &mut Notes) -> Result<usize, Fault>
    requires m_le_actions { input.now.actions ≤ format.actions }
    requires s_len_bound { length input.now.bytes.now ≤ format.request }
    ensures { outcome result t.new ≡ three_sections S.FORM input.now.fluents input.now.actions input.now.bytes.now p t.old }
{
    let executability = section_at::<Effects, S>(input, p, t)?;
    let knowledge = section_at::<Executability, S>(input, executability, t)?;
    section_at::<Knowledge, S>(input, knowledge, t)
}
