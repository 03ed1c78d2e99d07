// The first place in prefix order where a rule applies, and the frame after a step there.
ghost use Rattle.std.specs.Prelude.{option_copied};
ghost use Rattle.decision.specs.AtPlaces.{HereAt};
ghost use Rattle.running.specs.SearchPosts.{AtPost, SearchPre, SearchPost, FirstPre, FirstPost};

use binding::binding_ok;
use build::splicing::splice;
use decision::Decision;
use decision::kept::Kept;
use nav::{Places, nexts};
use put::Writer;
use reading::Frame;
use rewriter::dispatch::decide;

// What the rules decide at place k; at an expression, nothing.
fn decide_at(places: &Places<'_>, k: usize, kept: &mut Kept) -> Option<Decision>
    requires { HereAt places.now k }
    ensures { AtPost places.now k kept.new.items result }
{
    if places.is_expression_at(k) {
        return None;
    }
    decide(places, k, kept)
}

// The first place in prefix order where a rule applies, and what is decided there. What is kept there is then in the lent list.
fn search(places: &Places<'_>, kept: &mut Kept) -> Option<(usize, Decision)>
    requires { SearchPre places.now }
    ensures { SearchPost places.now kept.new.items result }
{
    for k in 0..places.count {
        if let Some(decision) = decide_at(places, k, kept) {
            return Some((k, decision));
        }
    }
    None
}

// The frame after the first step of an accepted frame, in the same way as a step gives it; `None` where no rule applies. What was
// accepted once stays accepted from step to step: so the frame is read again, but neither its names nor its types are checked again.
// The tables, the list and the writer are lent, whatever they hold, so that a run clears them once.
// Kept: four lent buffers and no struct of them, which `rounds` alone would make, once.
pub fn first_step<'a>(
    frame: &[u8],
    leaves: &mut [u16; 2048],
    table: &mut [u16; 2048],
    kept: &mut Kept,
    writer: &'a mut Writer,
) -> Option<&'a Writer>
    requires { FirstPre frame.now }
    ensures { FirstPost frame.now (option_copied result) }
{
    let known = Frame::new(frame);
    let read = reading::read_again(&known);
    // an accepted frame is closed: only the table is wanted
    binding_ok(&known, leaves);
    nexts(frame, read.nodes, &read.starts, table);
    // Kept: a literal, here and in `stepping`: a function that makes it would take the same five.
    let places = Places {
        bytes: frame,
        count: read.nodes,
        starts: &read.starts,
        nexts: table,
        leaves: leaves,
    };
    let (k, decision) = search(&places, kept)?;
    splice(&places, k, kept, decision, writer);
    Some(writer)
}
