ghost use Rattle.std.specs.Prelude.{◌≡◌};
ghost use Rattle.meaning.specs.Limits.{format};
ghost use Rattle.meaning.specs.declared.Form.TheVariants.{Flags, Valued};
ghost use Rattle.meaning.specs.Reading.{got, table_at};
ghost use Rattle.meaning.specs.Refusals.{settled};
ghost use Rattle.meaning.specs.Valued.{settled_values};
ghost use Rattle.meaning.specs.Guards.{settled_guarded};
ghost use Rattle.parsing.specs.Read.{over, passed};
ghost use Rattle.reading.specs.Noted.{noting, outcome};
ghost use Rattle.reading.specs.Requested.{request_noted, guarded_noted};
ghost use Rattle.finding.specs.ReadHere.{ReadHere};
ghost use Rattle.finding.specs.TablesHere.{blank, table_in, TableHere};
ghost use Rattle.refusing.specs.Settled.{table_unmixed, table_settled_as, past_18, past_all};

use super::refusal_16::contradiction;
use super::refusal_17::mixed;
use super::refusal_18::overlap;
use meaning::Form;
use parsing::faults::{Fault, Refusal};
use parsing::shapes::{OfFlags, OfValues};
use reader::whole::{read_guarded, read_request};
use reading::notes;
use reading::notes::{Notes, get};

// 17, of a table that ends at e.
fn mixed_refused(form: Form, s: &[u8], t: &Notes, e: usize) -> Result<usize, Fault>
    requires table_here { TableHere form s.now t.now }
    requires s_value { table_at format form s.now 0 ≡ got (table_in form s.now) e }
    ensures { over result ≡ passed (table_unmixed (table_in form s.now) e) }
{
    let count = get(t, notes::COUNT_OF_KNOWLEDGE);
    let bytes = 2 * count;
    let start = e - bytes;
    match mixed(s, t, start, count) {
        Some(p) => Err(Refusal::EffectAndKnowledge.at(p)),
        None => Ok(e),
    }
}

// 16 and 17, of a table that ends at e. Nothing is asked of a plan.
pub fn table_refused(form: Form, s: &[u8], t: &Notes, e: usize) -> Result<usize, Fault>
    requires table_here { TableHere form s.now t.now }
    requires s_value { table_at format form s.now 0 ≡ got (table_in form s.now) e }
    ensures { over result ≡ passed (table_settled_as form s.now (table_in form s.now) e) }
{
    let count = get(t, notes::COUNT_OF_EFFECTS);
    match contradiction(form, s, t, count) {
        Some(p) => Err(Refusal::ContradictoryEffects.at(p)),
        None => mixed_refused(form, s, t, e),
    }
}

// 18, of a request that was read up to e.
fn plan_refused(form: Form, s: &[u8], t: &Notes, e: usize) -> Result<usize, Fault>
    requires { ReadHere form s.now t.now }
    ensures { over result ≡ passed (past_18 form s.now e) }
{
    let count = get(t, notes::ITEMS);
    match overlap(form, s, t, count) {
        Some(p) => Err(Refusal::NotExclusive.at(p)),
        None => Ok(e),
    }
}

// 16 to 18, of a request that was read up to e. Its table ends where its plan starts.
fn refused(form: Form, s: &[u8], t: &Notes, e: usize) -> Result<usize, Fault>
    requires { ReadHere form s.now t.now }
    ensures { over result ≡ passed (past_all form s.now e) }
{
    let plan = get(t, notes::PLAN);
    table_refused(form, s, t, plan)?;
    plan_refused(form, s, t, e)
}

// A guarded request settled: read without a fault, and past 16, 17 and 18. The notes hold nothing before.
pub fn settle_guarded(s: &[u8], t: &mut Notes) -> Result<usize, Fault>
    requires { t.old ≡ blank }
    ensures { outcome result t.new ≡ noting guarded_noted (settled_guarded format s.now) t.old }
{
    let end = read_guarded(s, t)?;
    refused(Form::Flags, s, t, end)
}

// A request settled: read without a fault, and past 16, 17 and 18. The notes hold nothing before.
pub fn settle(s: &[u8], t: &mut Notes) -> Result<usize, Fault>
    requires { t.old ≡ blank }
    ensures { outcome result t.new ≡ noting (request_noted Flags) (settled format s.now) t.old }
{
    let end = read_request::<OfFlags>(s, t)?;
    refused(Form::Flags, s, t, end)
}

// A request with values settled in the same way. The notes hold nothing before.
pub fn settle_values(s: &[u8], t: &mut Notes) -> Result<usize, Fault>
    requires { t.old ≡ blank }
    ensures { outcome result t.new ≡ noting (request_noted Valued) (settled_values format s.now) t.old }
{
    let end = read_request::<OfValues>(s, t)?;
    refused(Form::Valued, s, t, end)
}
