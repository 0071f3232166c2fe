// Many places of an image judged together.
ghost use Rattle.std.specs.Prelude.{ℕ, List, Bool, ◌≡◌, ◌&&◌, ◌+◌, ◌%◌, ◌<◌, ◌≤◌};
ghost use Rattle.bits.specs.Below.{all_below};
ghost use Rattle.good.specs.Gathered.{Stretch};

use registers::Image;

// What is gathered of the places that one rule is for, so that one test judges many of them.
pub trait Gather: Copy {
    // Does place n of an image keep to the rule?
    ghost rule: { List ℕ → ℕ → Bool };

    // Do all places keep to it of which this was gathered?
    ghost kept: { Self → Bool };

    // How many places there are.
    const PLACES: usize;

    ghost PLACES: { ℕ };

    fn one(s: &Image, n: usize) -> Self
        requires { n < PLACES }
        ensures { kept result ≡ rule s.now n };

    fn join(self, other: Self) -> Self
        ensures { kept result ≡ (kept self && kept other) };

    fn is_kept(self) -> bool
        ensures { result ≡ kept self };

    // As many as mailboxes, at most.
    ghost few: { PLACES ≤ 32 };

    // They are taken eight at a time.
    ghost eights: { PLACES % 8 ≡ 0 };
}

// What eight places in a row gather. The compiler unrolls the loop.
fn eight<G: Gather>(s: &Image, n: usize) -> G
    requires { n + 8 ≤ G.PLACES }
    ensures { Stretch (G.rule s.now) n (n + 8) (G.kept result) }
{
    let mut all = G::one(s, n);
    for k in 1..8 {
        all = all.join(G::one(s, n + k));
    }
    all
}

// Every place, eight at a time: a branch for each would cost more than its test, and without any the compiler gathers the words into
// vectors, which costs more still.
pub fn are_kept<G: Gather>(s: &Image) -> bool
    ensures { result ≡ all_below (G.rule s.now) G.PLACES }
{
    for n in (0..G::PLACES).step_by(8) {
        if !eight::<G>(s, n).is_kept() {
            return false;
        }
    }
    true
}
