//! The text of a schema: a line for each column, as `field title` or `uint gid`.
ghost use Rattle.std.specs.Prelude.{◌≡◌, ◌++◌, [], ◌∷◌, take, vec_len, OnOk, OnErr};
ghost use Rattle.std.specs.List.{flat_map};
ghost use Rattle.doc_bytes.specs.SchemaText.{attr_line, field_line, kind_text, schema_text};

use doc_types::{AttrKind, Schema};
use srch_base::{Name, NoMemory};

/// Appends the text of a schema. After want of memory what was there is as before.
pub fn put_schema(schema: &Schema, out: &mut Vec<u8>) -> Result<(), NoMemory>
    ensures ok { OnOk result (out.new.items ≡ out.old.items ++ schema_text schema.now) }
    ensures err { OnErr result (out.new.items ≡ out.old.items) }
{
    let before = out.len();
    let written = write_schema(schema, out);
    if written.is_err() {
        out.truncate(before);
    }
    written
}

/// Appends the lines of all columns; after want of memory, a part of them at most.
fn write_schema(schema: &Schema, out: &mut Vec<u8>) -> Result<(), NoMemory>
    ensures ok { OnOk result (out.new.items ≡ out.old.items ++ schema_text schema.now) }
    ensures front { take (vec_len out.old) out.new.items ≡ out.old.items }
{
    for name in schema.fields.as_slice() {
        put_line(b"field ", name, out)?;
    }
    put_attrs(schema.attrs.as_slice(), out)
}

fn put_attrs(attrs: &[(Name, AttrKind)], out: &mut Vec<u8>) -> Result<(), NoMemory>
    ensures ok { OnOk result (out.new.items ≡ out.old.items ++ flat_map attr_line attrs.now) }
    ensures front { take (vec_len out.old) out.new.items ≡ out.old.items }
{
    for (name, kind) in attrs {
        put_line(kind_word(*kind), name, out)?;
    }
    Ok(())
}

fn put_line(kind: &[u8], name: &Name, out: &mut Vec<u8>) -> Result<(), NoMemory>
    ensures ok { OnOk result (out.new.items ≡ out.old.items ++ (kind.now ++ name.now ++ 10 ∷ [])) }
    ensures front { take (vec_len out.old) out.new.items ≡ out.old.items }
{
    out.extend_from_slice(kind)?;
    out.extend_from_slice(name.as_bytes())?;
    out.push(b'\n')?;
    Ok(())
}

fn kind_word(kind: AttrKind) -> &'static [u8]
    ensures { result.now ≡ kind_text kind }
{
    match kind {
        AttrKind::Uint => b"uint ",
        AttrKind::Bool => b"bool ",
        AttrKind::Bigint => b"bigint ",
        AttrKind::Timestamp => b"timestamp ",
    }
}
