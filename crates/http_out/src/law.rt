// What is true of all messages.
ghost use Rattle.http_out.specs.Message.{HasOneReading};

/// A message is read in one way only: as no line of a head has a CR or an LF, whoever cuts the bytes at the line ends
/// up to the first empty line gets the lines and the content that were written (RFC 9112 §2.1, §11.1). The function
/// does nothing; its contract is that law.
pub fn has_one_reading()
    ensures { HasOneReading }
{}
