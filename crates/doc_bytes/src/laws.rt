ghost use Rattle.std.specs.Prelude.{◌≡◌, length};
ghost use Rattle.doc_types.specs.Payloads.{payload_length};
ghost use Rattle.doc_types.specs.declared.transactions.Txn.{Txn};
ghost use Rattle.doc_bytes.specs.Payload.{payload};

/// A payload has as many bytes as `txn_bytes` counts.
pub fn a_payload_is_as_long_as_is_counted()
    ensures { (txn : Txn) → length (payload txn) ≡ payload_length txn }
{}
