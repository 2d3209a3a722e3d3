// What an institute chose, put into a table with a value for each candidate.
ghost use Rattle.std.specs.Prelude.{◌≤◌, length, get_or};
ghost use Rattle.sweeps.specs.Sweeps.{Apart, Scattered};

// Gives each of the listed candidates, by the table of who they are, the step that was chosen. Tables side by side, as `choose` fills them.
pub fn scatter(who: &[u16], chosen: &[u8], steps: &mut [u8])
    requires { (length who.now ≤ length chosen.now) × Apart who.now (length steps.old) (length who.now) }
    ensures { Scattered who.now (λ q. get_or chosen.now q 0) (length who.now)
        steps.old steps.new }
{
    for (&c, &step) in who.iter().zip(chosen) {
        steps[usize::from(c)] = step;
    }
}
