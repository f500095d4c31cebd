ghost use Rattle.codec_laws.specs.Laws.{RecordsReadBack, RecordsWriteBack, ReaderHandsOutRecords, RequestsReadBack, RequestsWriteBack, TimesAreOrdered, RecordFaultsHaveTheirPlace, RequestFaultsHaveTheirPlace, ReadingsAtTheLimits};

// What is written as records reads back the same, and what reads as records is what writing gives.
pub fn records_round_trip()
    ensures reads { RecordsReadBack }
    ensures writes { RecordsWriteBack }
{}

// The reader hands out the records of a PDU, whole and in order.
pub fn reader_hands_out_records()
    ensures { ReaderHandsOutRecords }
{}

// An invocation is read exactly if it follows its layout.
pub fn invocations_round_trip()
    ensures reads { RequestsReadBack }
    ensures writes { RequestsWriteBack }
{}

// The order of times.
pub fn times_are_ordered()
    ensures { TimesAreOrdered }
{}

// A fault lies within its input, and before it nothing is wrong but that the octets end there.
pub fn faults_have_their_place()
    ensures records { RecordFaultsHaveTheirPlace }
    ensures requests { RequestFaultsHaveTheirPlace }
{}

// The formats at their limits.
pub fn readings_at_the_limits()
    ensures { ReadingsAtTheLimits }
{}
