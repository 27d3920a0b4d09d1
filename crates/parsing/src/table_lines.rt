ghost use Rattle.std.specs.Prelude.{◌≡◌};
ghost use Rattle.meaning.specs.Limits.{format};
ghost use Rattle.meaning.specs.Reading.{body_at, effect_at, executability_at, knowledge_at};
ghost use Rattle.parsing.specs.Read.{numbered, over, passed, action_before, effect_read, executability_read, knowledge_read};

use super::bytes::below_at;
use super::faults::Fault;
use super::inputs::Input;
use super::limits;
use super::shapes::Shape;

impl<'a, S: Shape> Input<'a, S> {
    // A body, and a condition.
    pub fn body_at(&self, p: usize) -> Result<usize, Fault>
        ensures { over result ≡ passed (body_at format S.FORM self.now.fluents self.now.bytes.now p) }
    {
        self.literals_at(limits::BODY, p)
    }

    // The body after what a line says of action a.
    fn action_with_body(&self, a: usize, p: usize) -> Result<(usize, usize), Fault>
        ensures { numbered result ≡ action_before a (body_at format S.FORM self.now.fluents self.now.bytes.now p) }
    {
        let after = self.body_at(p)?;
        Ok((a, after))
    }

    // An effect: its action.
    pub fn effect_at(&self, p: usize) -> Result<(usize, usize), Fault>
        ensures { numbered result ≡ effect_read (effect_at format S.FORM self.now.fluents self.now.actions self.now.bytes.now p) }
    {
        let (a, literal) = below_at(self.actions, self.bytes, p)?;
        let (_, body) = S::literal_at(self.fluents, self.bytes, literal)?;
        self.action_with_body(a, body)
    }

    // An executability line: its action.
    pub fn executability_at(&self, p: usize) -> Result<(usize, usize), Fault>
        ensures { numbered result ≡ executability_read (executability_at format S.FORM self.now.fluents self.now.actions self.now.bytes.now p) }
    {
        let (a, body) = below_at(self.actions, self.bytes, p)?;
        self.action_with_body(a, body)
    }
}

// A knowledge line: its action.
pub fn knowledge_at(n: usize, m: usize, s: &[u8], p: usize) -> Result<(usize, usize), Fault>
    ensures { numbered result ≡ knowledge_read (knowledge_at format n m s.now p) }
{
    let (a, fluent) = below_at(m, s, p)?;
    let (_, after) = below_at(n, s, fluent)?;
    Ok((a, after))
}
