ghost use Rattle.std.specs.Prelude.{◌≡◌, ◌≤◌, ◌<◌, length};
ghost use Rattle.meaning.specs.Limits.{format};
ghost use Rattle.meaning.specs.Reading.{table_at};
ghost use Rattle.parsing.specs.Masks.{Counted};
ghost use Rattle.reading.specs.Noted.{table_noted, noting, outcome};
ghost use Rattle.reading.specs.Requested.{Starts, places_noted, goals_first, plan_first};

use super::notes;
use super::notes::{Notes, put};
use super::plan::plan_at;
use super::sections::three_sections;
use parsing::bytes::count_at;
use parsing::faults::Fault;
use parsing::inputs::Input;
use parsing::limits;
use parsing::lists::{Kind, list_at};
use parsing::shapes::Shape;

// Sections 1 to 5.
pub fn table_at<S: Shape>(s: &[u8], p: usize, t: &mut Notes) -> Result<usize, Fault>
    requires starts { Starts S.FORM p }
    requires s_len_bound { length s.now ≤ format.request }
    ensures { outcome result t.new ≡ noting table_noted (table_at format S.FORM s.now p) t.old }
{
    let (n, values) = count_at(1, limits::FLUENTS, s, p)?;
    let actions = S::values_at(n, s, values)?;
    let (m, facts) = count_at(1, limits::ACTIONS, s, actions)?;
    let input = Input::<S>::new(s, n, m);
    let effects = input.literals_at(limits::LISTED, facts)?;
    three_sections(&input, effects, t)
}

// Where the plan and the goals stand and how many items the plan has; of guards there are none so far.
fn put_places(plan: usize, items: usize, goals: usize, t: &mut Notes)
    requires plan_bound { plan < 65536 }
    requires bound { items < 65536 }
    requires goals_bound { goals < 65536 }
    ensures { t.new ≡ places_noted plan items goals 0 t.old }
{
    put(t, notes::PLAN, plan);
    put(t, notes::ITEMS, items);
    put(t, notes::GOALS, goals);
    put(t, notes::GUARDS, 0);
}

// Sections 7 and 8, after a plan of a given number of items whose count stands at `plan`.
fn goals_at<S: Shape>(
    input: &Input<S>,
    plan: usize,
    items: usize,
    p: usize,
    t: &mut Notes,
) -> Result<usize, Fault>
    requires plan_bound { plan < 65536 }
    requires bound { items < 65536 }
    requires p_bound { p < 65536 }
    ensures { outcome result t.new ≡ goals_first S.FORM input.now.fluents input.now.bytes.now plan items p t.old }
{
    let whether = input.literals_at(limits::LISTED, p)?;
    put_places(plan, items, p, t);
    list_at(
        Kind::Fluents,
        input.fluents,
        limits::LISTED,
        input.bytes,
        whether,
    )
}

// Sections 6 to 8, over n fluents and m actions.
pub fn request_at<S: Shape>(
    n: usize,
    m: usize,
    s: &[u8],
    p: usize,
    t: &mut Notes,
) -> Result<usize, Fault>
    requires counted { Counted S.FORM s.now }
    requires n_le_fluents { n ≤ format.fluents }
    requires s_len_bound { length s.now ≤ format.request }
    ensures { outcome result t.new ≡ plan_first S.FORM n m s.now p t.old }
{
    let (items, goals) = plan_at::<S>(n, m, s, p, t)?;
    let input = Input::<S>::new(s, n, m);
    goals_at(&input, p, items, goals, t)
}
