//! What is told each bit that a run hits.
ghost use Rattle.std.specs.Prelude.{ℕ, ◌≡◌, ◌<◌, List, [], ◌∷◌, ◌++◌};

/// Is told each bit that is hit, in order. `bits` is how many bits there are, and `leads` says by
/// which lists of hits one value of the probe becomes another: by none it stays, and lists of hits
/// one after the other are one list.
pub trait Probe {
    ghost bits: { Self → ℕ };

    ghost leads: { List ℕ → Self → Self → Type 0 };

    /// A bit is hit. Takes no memory.
    fn hit(&mut self, bit: u32)
        requires { bit < bits self.old }
        ensures bits { bits self.new ≡ bits self.old }
        ensures led { leads (bit ∷ []) self.old self.new };

    ghost stays: { (p : Self) → leads [] p p };

    ghost joins: { (xs ys : List ℕ) (p q r : Self) → leads xs p q → leads ys q r →
        leads (xs ++ ys) p r };
}
