// Recorded kinds: the types of value that a sample cell can hold, each value standing for one f32 sample.
#![tactic(auto)]

pub mod kinds;

ghost use Rattle.std.specs.Prelude.{◌≡◌, Float};

pub trait Recorded: Copy {
    ghost stands: { Self → Float };

    fn sample(self) -> f32
        ensures answer { result ≡ stands self };
}
