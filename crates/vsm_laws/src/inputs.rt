// The input of a call: its words in memory, and its elements as bytes of a page.
ghost use Rattle.std.specs.Prelude.{◌≡◌, ◌≤◌, ◌<◌, ◌-◌, ◌∷◌, [], ℕ, List, All, Ok, take, drop};
ghost use Rattle.std.specs.Int.{from_le_bytes, w32};
ghost use Rattle.vsm_core.specs.Calls.{element_at};
ghost use Rattle.vsm_core.specs.Messages.{words_in};
ghost use Rattle.vsm_core.specs.RegisterCalls.{numbers, settings};
ghost use Rattle.vsm_laws.specs.InputWords.{read_of};

/// The words that a slice of a rep call reads are its elements as `InputPage` has them, whatever the page's bytes: for
/// masks an element is a word, for a set its four words, and for a get the half of a word that has its place.
#[tactic(auto, unfolding(crate::specs::InputWords::read_of))]
pub fn slices_are_elements()
    ensures masks { (page element : List ℕ) (offset start past i : ℕ) → start ≤ i → i < past
        → element_at page offset 16 i 8 ≡ Ok element
        → take 1 (drop (i - start) (read_of page offset 8 start past)) ≡ words_in 1 element }
    ensures settings { (page element : List ℕ) (offset start past i : ℕ) → start ≤ i → i < past
        → element_at page offset 16 i 32 ≡ Ok element
        → take 1 (drop (i - start) (settings (read_of page offset 32 start past))) ≡ settings (words_in 4 element) }
    ensures numbers { (page element : List ℕ) (offset start past i : ℕ) → All (λ b. b < 256) page → start ≤ i → i < past
        → element_at page offset 16 i 4 ≡ Ok element
        → take 1 (drop (i - start) (numbers start past (read_of page offset 4 start past)))
        ≡ from_le_bytes w32 element ∷ [] }
{}
