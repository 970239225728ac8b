// How far a number is above the earlier row's.
#![tactic(auto)]

ghost use Rattle.std.specs.Prelude.{◌≡◌};
ghost use Rattle.rises.specs.Rises.{rise_of};

#[derive(Clone, Copy)]
pub enum Rise {
    Same,
    Up(u8),
    Other,
}

pub fn rise_of(old: u32, new: u32) -> Rise
    ensures { result ≡ rise_of old new }
{
    if new == old {
        return Rise::Same;
    }
    if new < old {
        return Rise::Other;
    }
    let d = new - old;
    if 255 < d {
        return Rise::Other;
    }
    Rise::Up(d as u8)
}
