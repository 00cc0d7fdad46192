// The law of isolation: what one source holds in one channel is heard on no other channel. A function here answers yes, and its contract
// is the statement, since a theorem counts only where a contract names it.
#![tactic(auto)]

pub mod both;

ghost use Rattle.std.specs.Prelude.{◌≡◌, true};
ghost use Rattle.isolation.specs.Heard.{HeardThere};
ghost use Rattle.isolation.specs.Isolation.{Isolated};

// Two mixers under the same calls, over sources that are alike but for the values of one source in one channel, give replies of one
// kind, and the same replies in every other channel.
pub fn isolated() -> bool
    ensures answer { result ≡ true }
    ensures law { Isolated }
{
    true
}

// The law has cases: there are such sources, and they differ in that channel.
pub fn heard_there() -> bool
    ensures answer { result ≡ true }
    ensures law { HeardThere }
{
    true
}
