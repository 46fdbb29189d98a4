// What is true of the requests of all bytes.
ghost use Rattle.http_in.specs.Laws.{
  HasOneReading,
  HasOneFront,
  KeepsRequests,
  KeepsRefusals,
  JoinsRequests,
  EndsAtLast,
  EndsAtRefusal,
};

/// The bytes of a connection are read in one way only: as one list of requests, and one end. The function does nothing; its
/// contract is that law.
pub fn has_one_reading()
    ensures reading { HasOneReading }
    ensures front { HasOneFront }
{}

/// What some bytes decide stays, whatever follows them. The function does nothing; its contract is that law.
pub fn stays_decided()
    ensures requests { KeepsRequests }
    ensures refusals { KeepsRefusals }
{}

/// The answers of a reader, one behind another, are the requests of all bytes and their end. The function does nothing; its
/// contract is that law.
pub fn answers_join()
    ensures requests { JoinsRequests }
    ensures last { EndsAtLast }
    ensures refusal { EndsAtRefusal }
{}
