//! Laws of random words. The function does nothing: its contract is a law, for proofs to cite.

ghost use Rattle.wb_random.specs.Words.{StepsFollowSteps, WordsFit, WordsFollowWords};

/// Words that are taken in two parts are those that are taken at once, and each has 64 bits: what
/// was taken is the first words of a seed on its stream, however it was taken.
pub fn words_follow_words()
    ensures words { WordsFollowWords }
    ensures rest { StepsFollowSteps }
    ensures fit { WordsFit }
{}
