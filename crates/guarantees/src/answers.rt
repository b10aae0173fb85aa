// What calls are answered.
ghost use Rattle.guarantees.specs.AnyTime.{BadTermsRefused, FirstCallsSound, ReadingHasRoom, StoreSound, WatermarkHasRoom};
ghost use Rattle.guarantees.specs.Faithful.{StoreFaithful};
ghost use Rattle.guarantees.specs.Unhindered.{UnhinderedRun};

// Replies and changes are those of the reference, which forgets nothing, and so is the ledger.
pub fn store_faithful()
    ensures { StoreFaithful }
{}

// Where no call is refused with 1 or 7, they are those of the reference fed all the commands.
pub fn unhindered_run()
    ensures { UnhinderedRun }
{}

// No number outgrows its bounds while the readings are few enough and their amounts small enough.
pub fn store_sound()
    ensures { StoreSound }
{}

// So it is for the first million calls.
pub fn first_calls_sound()
    ensures { FirstCallsSound }
{}

// A watermark is never refused for want of room.
pub fn watermark_has_room()
    ensures { WatermarkHasRoom }
{}

// Nor is a reading while the counts leave room.
pub fn reading_has_room()
    ensures { ReadingHasRoom }
{}

// With terms out of bounds every call is refused for them.
pub fn bad_terms_refused()
    ensures { BadTermsRefused }
{}
