ghost use Rattle.checking_core.specs.Reading.{IsReading};

use crate::feed::Feed;
use checking_core::AnswerFile;
use std::alloc::AllocError;

impl Feed for AnswerFile {
    ghost was_fed = { IsReading };

    fn feed(&mut self, piece: &[u8]) -> Result<(), AllocError> {
        AnswerFile::feed(self, piece)
    }
}
