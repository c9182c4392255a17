//! Laws of the definitions: bytes begin in one way, and a payload is one response or a bad one. Each function does nothing:
//! its contract is the law.
ghost use Rattle.std.specs.Prelude.{◌≡◌, ◌⊎◌, ℕ, List};
ghost use Rattle.mysql_wire.specs.Fronts.{Front, HasFront, AreBytes};
ghost use Rattle.mysql_wire.specs.Handshake.{Response, IsResponse, IsBadResponse};

/// Bytes begin in one way: with a part of a packet, with a packet, or with a header to refuse.
///
/// So the packets of a stream are its only ones, however it was cut into pieces.
pub fn bytes_begin_in_one_way()
    ensures some { (expect : ℕ) (bytes : List ℕ) → AreBytes bytes → (front : Front) × HasFront expect bytes front }
    ensures only { (expect : ℕ) (bytes : List ℕ) (a b : Front) → HasFront expect bytes a → HasFront expect bytes b → a ≡ b }
{}

/// A payload is one response, or it has one first field that isn't whole.
pub fn payload_is_one_response_or_bad()
    ensures either { (payload : List ℕ) → ((response : Response) × IsResponse payload response) ⊎ ((place : ℕ) × IsBadResponse payload place) }
    ensures not_both { (payload : List ℕ) (response : Response) (place : ℕ) → IsResponse payload response → IsBadResponse payload place → ⊥ }
    ensures response { (payload : List ℕ) (a b : Response) → IsResponse payload a → IsResponse payload b → a ≡ b }
    ensures place { (payload : List ℕ) (m n : ℕ) → IsBadResponse payload m → IsBadResponse payload n → m ≡ n }
{}
