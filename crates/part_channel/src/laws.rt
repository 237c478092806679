//! What holds of the definitions alone.
ghost use Rattle.std.specs.Prelude.{◌≡◌, ◌-◌, ◌*◌, ◌%◌, ◌≤◌, ◌++◌, length, replicate};
ghost use Rattle.part_channel.specs.Words.{bytes_of_words};
ghost use Rattle.part_channel.specs.BoxWords.{words_of};

/// The bytes that went into a box come out of it, and 0 behind them: whatever the width, as long as they fit.
pub fn bytes_law(bytes: &[u8], width: usize)
    requires whole { length bytes.now % 8 ≡ 0 }
    requires fits { length bytes.now ≤ 8 * width }
    requires wide { width ≤ 16 }
    ensures { bytes_of_words (words_of bytes.now width) ≡ bytes.now ++ replicate (128 - length bytes.now) 0 }
{}
