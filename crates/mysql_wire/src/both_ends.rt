//! Laws of the two ends together: what the server writes, the client reads as what it was. Each function does nothing: its
//! contract is the law.
ghost use Rattle.std.specs.Prelude.{◌≡◌, ◌^◌, ◌<◌, ℕ, List, length, map};
ghost use Rattle.std.specs.List.{AllByRecursion};
ghost use Rattle.mysql_wire.specs.declared.rows.Column.{Column as AnyColumn};
ghost use Rattle.mysql_wire.specs.declared.rows.Cell.{Cell as AnyCell};
ghost use Rattle.mysql_wire.specs.declared.readers.WireGreeting.{WireGreeting};
ghost use Rattle.mysql_wire.specs.declared.readers.WireOk.{WireOk};
ghost use Rattle.mysql_wire.specs.declared.readers.WireErr.{WireErr};
ghost use Rattle.mysql_wire.specs.declared.readers.WireEof.{WireEof};
ghost use Rattle.mysql_wire.specs.LengthEncoded.{lenenc};
ghost use Rattle.mysql_wire.specs.Replies.{greeting_payload, ok_payload, err_payload, eof_payload};
ghost use Rattle.mysql_wire.specs.Rows.{column_payload, cell_text, row_payload};
ghost use Rattle.mysql_wire.specs.Fields.{Fills};
ghost use Rattle.mysql_wire.specs.Payloads.{number_fields, greeting_fields, ok_fields, err_fields, eof_fields, column_fields, row_fields, value_of};

/// A law: a client reads each packet that the server writes as what the server said.
pub fn replies_are_read()
    ensures greeting { (greeting : WireGreeting) → greeting.connection < 2 ^ 32
        → Fills (greeting_fields greeting) (greeting_payload greeting.connection) }
    ensures ok { (ok : WireOk) → ok.affected < 2 ^ 64 → ok.status < 2 ^ 16
        → Fills (ok_fields ok) (ok_payload ok.affected ok.status) }
    ensures err { (err : WireErr) → err.code < 2 ^ 16 → length err.state ≡ 5
        → Fills (err_fields err) (err_payload err.code err.state err.text) }
    ensures eof { (eof : WireEof) → eof.status < 2 ^ 16 → Fills (eof_fields eof) (eof_payload eof.status) }
{}

/// A law: a client reads each part of a result set that the server writes as what the server said.
pub fn result_sets_are_read()
    ensures number { (n : ℕ) → n < 2 ^ 64 → Fills (number_fields n) (lenenc n) }
    ensures column { (column : AnyColumn) → length column.name < 2 ^ 64
        → Fills (column_fields column) (column_payload column) }
    ensures row { (row : List AnyCell) → AllByRecursion (λ cell. length (cell_text cell) < 2 ^ 64) row
        → Fills (row_fields (map value_of row)) (row_payload row) }
{}
