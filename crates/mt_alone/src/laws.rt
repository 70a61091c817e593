//! Laws of sessions over sorted maps, the contracts of functions that do nothing.

ghost use Rattle.std.specs.{Prelude.{◌≡◌, ◌≢◌, ◌<◌, ◌^◌, ℕ, Bool, false, List, []}, List.AllByRecursion};
ghost use Rattle.mt_rows.specs.{Rows.Bytes, declared.refusal.Refusal.TheVariants.Spent};
ghost use Rattle.mt_wire.specs.Fronts.{IsReadingEnd};
ghost use Rattle.mt_session.specs.Sessions.{Transcript, refused};
ghost use Rattle.mt_alone.specs.{TenantMaps.{TenantMaps, MapsExchange}, Texts.{IsAmple, AsksNoStamp, AreSameButStamps}, Numbers.{NumberedMaps, numbered_maps, NumberedExchange, AreSameButLast}};

/// Where no reply tells of want, and no request asks for a stamp, a session over sorted maps
/// writes one text for the bytes that it reads, and leaves the same rows in each tenant's map. That is
/// so whatever numbers its commands have, and whatever stamps the rows had before.
pub fn one_text()
    ensures { (bytes rest left text words : Bytes) (d c e f : TenantMaps) (o p : Bool)
        (a : Transcript MapsExchange bytes false d rest o e text) (b : Transcript MapsExchange bytes false c left p f words)
        → AreSameButStamps d c → IsReadingEnd rest → IsReadingEnd left → AllByRecursion AsksNoStamp a.requests → AllByRecursion IsAmple a.replies → AllByRecursion IsAmple b.replies
        → (text ≡ words) × (rest ≡ left) × AreSameButStamps e f }
{}

/// A session over sorted maps is one by some numbers, one for each command that is answered. By these it
/// writes one text where no reply tells of want, and leaves the same maps: also if it asks for stamps.
pub fn one_text_by_numbers()
    ensures numbers { (bytes rest text : Bytes) (d e : TenantMaps) (o : Bool) → Transcript MapsExchange bytes false d rest o e text
        → (numbers : List ℕ) × Transcript NumberedExchange bytes false (numbered_maps d numbers) rest o (numbered_maps e []) text }
    ensures one { (bytes rest left text words : Bytes) (d c e f : NumberedMaps) (o p : Bool)
        (a : Transcript NumberedExchange bytes false d rest o e text) (b : Transcript NumberedExchange bytes false c left p f words)
        → AreSameButLast d c → IsReadingEnd rest → IsReadingEnd left → AllByRecursion IsAmple a.replies → AllByRecursion IsAmple b.replies
        → (text ≡ words) × (rest ≡ left) × AreSameButLast e f }
{}

/// A session over sorted maps refuses nothing with Spent as long as numbers are left at its end: fewer than
/// 2 to the 59th were given.
pub fn spent_at_the_last_number()
    ensures { (bytes rest text : Bytes) (d e : TenantMaps) (o : Bool) (a : Transcript MapsExchange bytes false d rest o e text) → e.last < 2 ^ 59
        → AllByRecursion (λ reply. reply ≢ refused Spent) a.replies }
{}
