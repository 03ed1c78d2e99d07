// The lent output: what it is too short for (number 12), and the frame that goes there.
#![tactic(auto)]

ghost use Rattle.std.specs.Prelude.{option_copied};
ghost use Rattle.output.specs.OutPosts.{OutPre, OutPost, AdmitPost};

use frame::limits::FRAME_LIMIT;
use frame::refusals::Refusal;
use step::Step;

// The new frame goes to the output, if it fits there; `None` is one that did not fit a frame.
pub fn write_out(frame: Option<&[u8]>, out: &mut [u8]) -> Result<Step, Refusal>
    requires { OutPre (option_copied frame) }
    ensures { OutPost (option_copied frame.entry) out.old out.new result }
{
    let frame = frame.ok_or(Refusal::NoRoom)?;
    let length = frame.len();
    if out.len() < length {
        return Err(Refusal::NoRoom);
    }
    out[..length].copy_from_slice(frame);
    Ok(Step::Changed(length))
}

// What stands against a run before its first step, by what the checks answered, and how many bytes the lent output has.
// Kept: it takes the answer of the checks and hands its refusal on, so that 12 comes after theirs in one place.
pub fn admit(checked: Result<usize, Refusal>, lent: usize) -> Result<(), Refusal>
    ensures { AdmitPost checked lent result }
{
    checked?;
    if lent < FRAME_LIMIT {
        return Err(Refusal::NoRoom);
    }
    Ok(())
}
