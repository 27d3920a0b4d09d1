ghost use Rattle.std.specs.Prelude.{◌≡◌, ◌<◌, length, get_or};
ghost use Rattle.meaning.specs.Limits.{format};
ghost use Rattle.meaning.specs.Asking.{line_at};
ghost use Rattle.steps.specs.Held.{table_in};
ghost use Rattle.glintstring.specs.Missing.{ItemByte};
ghost use Rattle.meaning.specs.declared.Form.TheVariants.{Flags};

use meaning::Runs;
use parsing::bytes::wide;
use parsing::limits;
use parsing::shapes::OfFlags;
use reading::marks::Marks;
use steps::actions::ask;
use steps::request::Request;

// A place of a request, which has two bytes.
fn narrowed(place: usize) -> u32
    requires { place < 65536 }
    ensures { result ≡ place }
{
    place as u32
}

// The partial state that these bytes are.
fn marks_in(state: &[u8]) -> Marks
    requires { length state.now ≡ format.state }
    ensures { result ≡ state.now }
{
    let mut marks = [limits::UNKNOWN_MARK; limits::FLUENTS];
    marks.copy_from_slice(state);
    marks
}

// The line of the item at this place, in the state that was left: that which asking names, and none of a branching.
pub(crate) fn line_at(r: &Request<OfFlags>, place: usize, state: &[u8]) -> u32
    requires item_byte { ItemByte r.now.bytes.now place }
    requires state_len { length state.now ≡ format.state }
    ensures { result ≡ line_at (table_in Flags r.now.bytes.now) (get_or r.now.bytes.now place 0) state.now }
{
    if r.bytes[place] == limits::BRANCHING_BYTE {
        return 0;
    }
    let a = wide(r.bytes[place]);
    let marks = marks_in(state);
    match ask(r, a, &marks) {
        Runs::By(p) => narrowed(p),
        Runs::Short(p) => narrowed(p),
        Runs::Never => 0,
    }
}
