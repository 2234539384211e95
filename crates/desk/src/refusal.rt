// Refusals, as text.
ghost use Rattle.std.specs.Prelude.{◌≡◌, ◌++◌, is_ok, if◌then◌else◌};
ghost use Rattle.forms.specs.Refusals.{refusal_text};

use forms::fault::Fault;
use forms::refusal::Refusal;
use std::alloc::{AllocError, Global};

// Adds to `out` the text of what a refusal tells; where there is no memory, nothing.
pub fn add_refusal(heap: Global, refusal: &Refusal, out: &mut Vec<u8>) -> Result<(), AllocError>
    ensures { out.new.items ≡ (if is_ok result then out.old.items ++ refusal_text refusal.now.number refusal.now.layer refusal.now.place else out.old.items) }
{
    let text = refusal.to_string(heap)?;
    out.extend_from_slice(text.as_bytes())
}

// Adds to `out` the text of a refusal: its number, layer and place; where there is no memory, nothing.
pub fn write_refusal<F: Fault>(heap: Global, fault: &F, out: &mut Vec<u8>) -> Result<(), AllocError>
    ensures { out.new.items ≡ (if is_ok result then out.old.items ++ refusal_text (F.Fault.numbered fault.now) (F.Fault.layered fault.now) (F.Fault.placed fault.now) else out.old.items) }
{
    add_refusal(heap, &Refusal::of(fault), out)
}
