//! The cache.
ghost use Rattle.std.specs.Prelude.{◌≡◌, ◌≢◌, false, None, Some, IfErr, IfOk, IfSome, OnErr, OnOk, option_copied};
ghost use Rattle.example_cache.specs.Answers.{answer_to, question_of};
ghost use Rattle.rmp_encode.specs.Calls.{ToVecFails};
ghost use Rattle.rmp_wire.specs.Msg.{Msg};
ghost use Rattle.rmp_wire.specs.Spelling.{Fits};

use rmp_encode::{Error, Serialize, to_vec};
use std::alloc::Global;
use std::collections::BTreeMap;

/// A cache of answers, each under the canonical encoding of its question.
///
/// Two questions are the same if they are the same message, whatever their types.
#[derive(Drop)]
pub struct Cache<A> {
    answers: BTreeMap<Vec<u8>, A>,
}

impl<A: Drop> Cache<A> {
    /// Makes an empty cache.
    pub fn new(alloc: Global) -> Cache<A>
        ensures { (m : Msg) → answer_to result m ≡ None }
    {
        Cache {
            answers: BTreeMap::new(alloc),
        }
    }

    /// Returns the answer to a question, if there is one.
    ///
    /// # Errors
    /// Those of `to_vec`.
    pub fn get<Q: Serialize>(&self, alloc: Global, question: &Q) -> Result<Option<&A>, Error>
        ensures answer { IfOk result (λ answer. IfSome (question_of (Q.data_of question.now false)) (λ m. option_copied answer ≡ answer_to self.now m)) }
        ensures err { IfErr result (ToVecFails (question_of (Q.data_of question.now false))) }
    {
        let key = to_vec(alloc, question)?;
        Ok(self.answers.get(key.as_slice()))
    }

    /// Keeps an answer, which replaces the one that is there.
    ///
    /// # Errors
    /// Those of `to_vec`, and `OutOfMemory` if the cache can't grow. Then it doesn't change.
    pub fn put<Q: Serialize>(&mut self, alloc: Global, question: &Q, answer: A) -> Result<(), Error>
        // The same question has this answer from now on,
        ensures same { OnOk result (IfSome (question_of (Q.data_of question.now false)) (λ m. answer_to self.new m ≡ Some answer)) }
        // and each other question the answer that it had.
        ensures others { OnOk result ((n : Msg) → Fits n → question_of (Q.data_of question.now false) ≢ Some n
            → answer_to self.new n ≡ answer_to self.old n) }
        ensures kept { OnErr result ((n : Msg) → answer_to self.new n ≡ answer_to self.old n) }
        ensures err { IfErr result (ToVecFails (question_of (Q.data_of question.now false))) }
    {
        let key = to_vec(alloc, question)?;
        match self.answers.insert(key, answer) {
            Ok(_) => Ok(()),
            Err(_) => Err(Error::OutOfMemory),
        }
    }
}
