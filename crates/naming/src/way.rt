ghost use Rattle.std.specs.Prelude.{◌≡◌, Ok, Err, codes, ◌≢◌};

use refusals::refusal::Refusal;
use rules::way::Way;

// The way that a text names. A function and no FromStr, which would be no plainer: its error would only be
// turned into the refusal here.
pub fn way_named(text: &str) -> Result<Way, Refusal>
    ensures reduct { text.now ≡ codes "reduct" → result ≡ Ok Way.Reduct }
    ensures complement { text.now ≡ codes "complement" → result ≡ Ok Way.Complement }
    ensures other { (text.now ≢ codes "reduct") → (text.now ≢ codes "complement") → result ≡ Err Refusal.NoWay }
{
    match text {
        "reduct" => Ok(Way::Reduct),
        "complement" => Ok(Way::Complement),
        _ => Err(Refusal::NoWay),
    }
}
