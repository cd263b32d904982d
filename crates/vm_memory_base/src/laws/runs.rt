//! What holds of runs of neighbouring addresses.
ghost use Rattle.std.specs.Prelude.{◌≡◌, ℕ, ◌+◌, ◌<◌, ◌≤◌, Bool, false, if◌then◌else◌, List, Option, None};
ghost use Rattle.vm_memory_base.specs.Address.{is_within};
ghost use Rattle.vm_memory_base.specs.Runs.{AddressRun, TestsEquality, runs, IsCanonical, value_at, cut_to};

/// The runs of a function are canonical. They say what it says of the addresses asked for, and nothing of others.
/// Functions have the same runs exactly if they agree at each of these, and a canonical list is the list of
/// the runs of what it says.
///
/// Witness: tests_base::runs_of_part
pub fn runs_decide_the_function<K>()
    ensures canonical { (same : K → K → Bool) → TestsEquality same → (f : ℕ → Option K) (a n : ℕ)
        → IsCanonical same (runs same f a n) }
    ensures values { (same : K → K → Bool) → TestsEquality same → (f : ℕ → Option K) (a n x : ℕ)
        → value_at (runs same f a n) x ≡ (if is_within a n x then f x else None) }
    ensures same_runs { (same : K → K → Bool) → TestsEquality same → (f g : ℕ → Option K) (a n : ℕ)
        → ((x : ℕ) → a ≤ x → x < a + n → f x ≡ g x) → runs same f a n ≡ runs same g a n }
    ensures same_values { (same : K → K → Bool) → TestsEquality same → (f g : ℕ → Option K) (a n : ℕ)
        → runs same f a n ≡ runs same g a n → (x : ℕ) → a ≤ x → x < a + n → f x ≡ g x }
    ensures of_a_list { (same : K → K → Bool) → TestsEquality same → (rs : List (AddressRun K)) (a n : ℕ)
        → IsCanonical same rs → ((x : ℕ) → is_within a n x ≡ false → value_at rs x ≡ None)
        → runs same (value_at rs) a n ≡ rs }
{}

/// Canonical lists that say the same of each address are one list.
///
/// Witness: tests_base::runs_of_part
pub fn canonical_list_is_unique<K>()
    ensures { (same : K → K → Bool) → TestsEquality same → (rs ss : List (AddressRun K)) → IsCanonical same rs
        → IsCanonical same ss → ((x : ℕ) → value_at rs x ≡ value_at ss x) → rs ≡ ss }
{}

/// The runs of a part are the runs of the whole, cut to the part. A list that is cut stays canonical, and says of
/// the part what it said before.
///
/// Witness: tests_base::runs_of_part
pub fn runs_are_cut<K>()
    ensures canonical { (same : K → K → Bool) (a n : ℕ) (rs : List (AddressRun K)) → IsCanonical same rs
        → IsCanonical same (cut_to a n rs) }
    ensures values { (a n : ℕ) (rs : List (AddressRun K)) (x : ℕ)
        → value_at (cut_to a n rs) x ≡ (if is_within a n x then value_at rs x else None) }
    ensures of_a_list { (same : K → K → Bool) → TestsEquality same → (rs : List (AddressRun K)) (a n : ℕ)
        → IsCanonical same rs → runs same (value_at rs) a n ≡ cut_to a n rs }
    ensures of_a_function { (same : K → K → Bool) → TestsEquality same
        → (f : ℕ → Option K) (a n b m : ℕ) → b ≤ a → a + n ≤ b + m
        → runs same f a n ≡ cut_to a n (runs same f b m) }
{}
