// In which mode each step of a run is made, as a word of the letters s and f: one for each round, for the ends and for the openings.
ghost use Rattle.std.specs.Prelude.{◌≡◌};
ghost use Rattle.trip.specs.Modes.{is_letter, is_word, letter_at, full_at, letter_from, letters_of};

// By `all` on the iterator the goals of `every` in specs/Modes stay open.
#[tactic(auto, using(vector::proofs::Every::every_true), unfolding(crate::specs::Modes::is_word))]
pub(crate) fn is_word(word: &[u8]) -> bool
    ensures { result ≡ is_word word.now }
{
    if word.is_empty() {
        return false;
    }
    for &letter in word {
        if !is_letter(letter) {
            return false;
        }
    }
    true
}

fn is_letter(letter: u8) -> bool
    ensures { result ≡ is_letter letter }
{
    letter == b's' || letter == b'f'
}

// The letters of the steps, of which a run has seventeen at most: f from a step on, before it by the word.
pub(crate) fn letters_of(word: &[u8], from: u64) -> [u8; 17]
    ensures { result ≡ letters_of word.now from }
{
    let mut letters = [0u8; 17];
    for i in 0..17 {
        letters[i] = letter_from(word, from, i);
    }
    letters
}

fn letter_from(word: &[u8], from: u64, step: usize) -> u8
    ensures { result ≡ letter_from word.now from step }
{
    if from <= step as u64 {
        return b'f';
    }
    letter_at(word, step)
}

// A step past the word has its last letter; none where there is no word.
#[tactic(auto, unfolding(crate::specs::Modes::letter_at))]
fn letter_at(word: &[u8], step: usize) -> u8
    ensures { result ≡ letter_at word.now step }
{
    if step < word.len() {
        return word[step];
    }
    if word.len() == 0 {
        return 0;
    }
    word[word.len() - 1]
}

// Whether a step is made in full mode.
pub(crate) fn full_at(letters: &[u8], step: usize) -> bool
    ensures { result ≡ full_at letters.now step }
{
    letter_at(letters, step) == b'f'
}
