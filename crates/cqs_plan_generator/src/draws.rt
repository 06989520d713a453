//! The numbers that the generator draws.

ghost use Rattle.std.specs.Prelude.{◌≡◌, ◌<◌, ◌^◌};
ghost use Rattle.cqs_plan_generator.specs.Draws.{next_state, number_of};

/// A linear congruence on 31 bits, of which the upper 15 are drawn: the one that the C standard
/// gives as an example for `rand`.
#[derive(Drop)]
pub struct Draws {
    pub state: u32,
    ghost within: { state < 2 ^ 31 },
}

impl Draws {
    /// Begins with this number.
    pub fn new(number: u32) -> Draws
        requires { number < 2 ^ 31 }
        ensures { result.state ≡ number }
    {
        Draws { state: number }
    }

    /// The next number, from 0 to 32,767.
    pub fn draw(&mut self) -> u32
        ensures state { self.new.state ≡ next_state self.old.state }
        ensures drawn { result ≡ number_of self.new.state }
    {
        let next = (u64::from(self.state) * 1_103_515_245 + 12_345) % 2_147_483_648;
        self.state = next as u32;
        self.state / 65_536
    }
}
