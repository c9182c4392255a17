//! What a run comes to, in the words of a table.
use crate::table_host::TableHost;
use program_host::{Request, Stream};
use srch_base::Text;

/// Appends a number.
pub(crate) fn put_number(told: &mut String, number: u64) -> Option<()> {
    write!(told, "{number}").ok()
}

/// Appends a text behind some words.
fn put_text(told: &mut String, before: &str, text: &Text) -> Option<()> {
    told.push_str(before).ok()?;
    told.push_str(str::from_utf8(text.as_bytes()).ok()?).ok()
}

/// Appends a request: the path of a text, `in` and the path of a store, or the number of doors, with their address where they have one.
fn put_request(told: &mut String, request: &Request) -> Option<()> {
    match request {
        Request::ReadText(path) => put_text(told, " ", path)?,
        Request::OpenStore(path) => put_text(told, " in ", path)?,
        Request::OpenDoors(address, count) => {
            told.push_str(" ").ok()?;
            put_number(told, u64::from(*count))?;
            if let Some(address) = address {
                put_text(told, " at ", address)?;
            }
        }
    }
    told.push_str(",").ok()
}

/// Appends what was printed, with a mark before each line and `;` for its end.
fn put_printed(told: &mut String, mark: &str, printed: &[u8]) -> Option<()> {
    for line in str::from_utf8(printed).ok()?.split_inclusive("\n") {
        told.push_str(mark).ok()?;
        told.push_str(line.strip_suffix("\n")?).ok()?;
        told.push_str(";").ok()?;
    }
    Some(())
}

/// Appends how many stores and doors came back.
fn put_back(told: &mut String, stores: u64, doors: u64) -> Option<()> {
    told.push_str(" ").ok()?;
    put_number(told, stores)?;
    told.push_str(" and ").ok()?;
    put_number(told, doors)?;
    told.push_str(" back;").ok()
}

/// Appends the exit status; the requests; how many stores and doors came back;
/// and what was printed to the output, and to the errors behind `!`.
pub(crate) fn put_told(told: &mut String, code: u8, host: &TableHost) -> Option<()> {
    put_number(told, u64::from(code))?;
    told.push_str("; asks").ok()?;
    for request in host.base.requests()? {
        put_request(told, request)?;
    }
    let stores = host.base.stores_back().len() as u64;
    put_back(told, stores, host.back.len() as u64)?;
    put_printed(told, " ", host.base.printed(Stream::Out))?;
    put_printed(told, " ! ", host.base.printed(Stream::Err))
}
