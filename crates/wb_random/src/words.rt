//! The random words that were not taken yet.
ghost use Rattle.std.specs.Prelude.{◌≡◌, ◌≤◌, length, IfOk, OnOk, OnErr};
ghost use Rattle.wb_random.specs.Words.{after_word, after_words, drawn, started, word_of, words_of};

use rand_core::utils::next_u64_via_u32;
use rand_pcg::Lcg64Xsh32;
use std::alloc::{AllocError, Global};
use std::marker::Model;

/// The words that were not taken yet. They are those of one generator, from its seed on.
#[derive(Clone, Drop)]
pub struct RandomWords {
    generator: Lcg64Xsh32,
}

impl Model for RandomWords {
    ghost use Rattle.rand_pcg.specs.Lcg.{Lcg};

    ghost Value = { Lcg };

    ghost view = { λ w. w.generator };
}

impl RandomWords {
    /// All words of a seed on a stream.
    pub fn new(stream: u64, seed: u64) -> Self
        ensures { result ≡ started stream seed }
    {
        RandomWords {
            generator: Lcg64Xsh32::new(seed, stream),
        }
    }

    /// Takes the next word, and makes of it a number from 0 to `most`.
    pub fn up_to(&mut self, most: u32) -> u64
        ensures drawn { result ≡ drawn most self.old }
        ensures rest { self.new ≡ after_word self.old }
        ensures within { result ≤ most }
    {
        self.next() % (u64::from(most) + 1)
    }

    /// The next word, and the words after it.
    pub fn next_ahead(&self) -> Result<(u64, RandomWords), AllocError>
        ensures { IfOk result (λ r. (r.0 ≡ word_of self.now) × (r.1 ≡ after_word self.now)) }
    {
        let mut rest = self.clone()?;
        let word = rest.next();
        Ok((word, rest))
    }

    /// The next `count` words, and the words after them.
    pub fn ahead(&self, alloc: Global, count: usize) -> Result<(Vec<u64>, RandomWords), AllocError>
        ensures { IfOk result (λ r. (r.0.items ≡ words_of self.now count) ×
            (length r.0.items ≡ count) × (r.1 ≡ after_words self.now count)) }
    {
        let mut rest = self.clone()?;
        let words = rest.take(alloc, count)?;
        Ok((words, rest))
    }

    /// Takes the next `count` words. If an allocation fails, none is taken.
    fn take(&mut self, alloc: Global, count: usize) -> Result<Vec<u64>, AllocError>
        ensures words { IfOk result (λ words. words.items ≡ words_of self.old count) }
        ensures length { IfOk result (λ words. length words.items ≡ count) }
        ensures rest { OnOk result (self.new ≡ after_words self.old count) }
        ensures err { OnErr result (self.new ≡ self.old) }
    {
        let mut words = Vec::with_capacity(alloc, count)?;
        for _ in 0..count {
            words.push_reserved(self.next());
        }
        Ok(words)
    }

    /// Takes the next word.
    fn next(&mut self) -> u64
        ensures word { result ≡ word_of self.old }
        ensures rest { self.new ≡ after_word self.old }
    {
        next_u64_via_u32(&mut self.generator)
    }
}
