// How many workers a call is given.
ghost use Rattle.market_words.specs.Forms.{AreWorkers};

/// A number of workers that the words of a call may say: 1 to 16.
#[derive(Clone, Copy)]
pub struct Workers {
    pub number: u16,
    pub ghost within: { AreWorkers number },
}
