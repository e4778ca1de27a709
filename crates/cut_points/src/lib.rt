// Points of the cut list in millimetres. Document 02, point 2.
#![tactic(auto)]

ghost use Rattle.std.specs.Prelude.{false, ◌≡◌, ◌*◌};
ghost use Rattle.std.specs.Float.Ieee.Exact.{HasValue};
ghost use Rattle.model.specs.Cut.{millimetres};

// A pixel line in millimetres: pixel line x pitch / 64. Nothing is rounded: the value is that fraction.
pub fn millimetres(line: u16, pitch: u32) -> f64
    ensures is { result ≡ millimetres line pitch }
    ensures exact { HasValue result false (line * pitch) 64 }
{
    let whole = line as u64 * pitch as u64;
    whole as f64 / 64.0
}
