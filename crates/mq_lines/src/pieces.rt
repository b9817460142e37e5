//! The pieces of messages, in words or as parts of objects.

ghost use Rattle.std.specs.Prelude.{◌≡◌, ◌≤◌, ◌+◌, ◌++◌, codes, length, max};
ghost use Rattle.arrayvec.specs.ArrayVec.{array_vec_len};
ghost use Rattle.mq_wire.specs.Numbered.{numbered_query, numbered_version};
ghost use Rattle.mq_lines.specs.Messages.{address_in, fault_in, fields_in, kind_in, response_in};
ghost use Rattle.mq_lines.specs.Messages as message;
ghost use Rattle.mq_lines.specs.Text as spec;

use crate::line_key::LineKey;
use crate::object_pieces::{put_address, put_address_object, put_comma, put_either, put_truth};
use mq_text::{Text, put, put_decimal};
use mq_wire::{OlderVersion, QuerierFields, Query, QueryVersion, WireFault};

/// Appends a query up to its sources.
pub(crate) fn put_query_start<K: LineKey>(json: bool, buffer: &mut Text, query: &Query<'_, K>)
    requires { array_vec_len buffer.old + 256 ≤ 4096 }
    ensures { buffer.new.items ≡ buffer.old.items ++ message.query_start json K.family (numbered_query K.number query.now) }
{
    put_either(
        json,
        buffer,
        b"{\"type\":\"query\",\"version\":",
        b"query v",
    );
    put_subject(json, buffer, version_of(&query.version), query.group);
    put_version_start(json, buffer, query.response, &query.version);
}

/// Appends a version and a group.
fn put_subject<K: LineKey>(json: bool, buffer: &mut Text, version: u8, group: K)
    requires { array_vec_len buffer.old + 71 ≤ 4096 }
    ensures text { buffer.new.items ≡ buffer.old.items ++ message.subject json K.family version (K.number group) }
    ensures room { array_vec_len buffer.new ≤ array_vec_len buffer.old + 71 }
{
    put_decimal(buffer, u64::from(version));
    put_either(json, buffer, b",\"group\":", b" group ");
    put_address_in(json, buffer, group);
}

/// Appends the fields of a query after its group, up to its sources.
fn put_version_start<K: LineKey>(
    json: bool,
    buffer: &mut Text,
    response: u32,
    version: &QueryVersion<'_, K>,
)
    requires { array_vec_len buffer.old + 150 ≤ 4096 }
    ensures { buffer.new.items ≡ buffer.old.items ++ message.version_start json K.family response (numbered_version version.now) }
{
    match version {
        QueryVersion::Older(version) => {
            if K::has_response(*version) {
                put_response(json, buffer, response);
            }
        }
        QueryVersion::Current(fields) => {
            put_response(json, buffer, response);
            put_fields(json, buffer, fields);
        }
    }
}

/// Appends the response of a query.
fn put_response(json: bool, buffer: &mut Text, response: u32)
    requires { array_vec_len buffer.old + 32 ≤ 4096 }
    ensures text { buffer.new.items ≡ buffer.old.items ++ response_in json response }
    ensures room { array_vec_len buffer.new ≤ array_vec_len buffer.old + 32 }
{
    put_either(json, buffer, b",\"response\":", b" response ");
    put_decimal(buffer, u64::from(response));
}

/// Appends the fields that only a query of IGMPv3 or MLDv2 has, up to its sources.
fn put_fields<K: LineKey>(json: bool, buffer: &mut Text, fields: &QuerierFields<'_, K>)
    requires { array_vec_len buffer.old + 118 ≤ 4096 }
    ensures { buffer.new.items ≡ buffer.old.items
        ++ fields_in json fields.now.suppress fields.now.robustness fields.now.interval (length fields.now.sources) }
{
    put_either(json, buffer, b",\"s\":", b" s ");
    put_flag(json, buffer, fields.suppress);
    put_either(json, buffer, b",\"qrv\":", b" qrv ");
    put_decimal(buffer, u64::from(fields.robustness.get()));
    put_either(json, buffer, b",\"interval\":", b" interval ");
    put_decimal(buffer, u64::from(fields.interval));
    put_sources_start(json, buffer, fields.sources.len());
}

/// Appends a flag.
fn put_flag(json: bool, buffer: &mut Text, flag: bool)
    requires { array_vec_len buffer.old + 5 ≤ 4096 }
    ensures text { buffer.new.items ≡ buffer.old.items ++ message.flag_in json flag }
    ensures room { array_vec_len buffer.new ≤ array_vec_len buffer.old + 5 }
{
    if json {
        return put_truth(buffer, flag);
    }
    put(buffer, if flag { b"1" } else { b"0" });
}

/// Appends the start of the sources of a query.
fn put_sources_start(json: bool, buffer: &mut Text, count: usize)
    requires { array_vec_len buffer.old + 32 ≤ 4096 }
    ensures { buffer.new.items ≡ buffer.old.items ++ message.sources_start json count }
{
    put_list_start(json, buffer, b",\"sources\":[", b" sources ", count);
}

/// Appends the start of a list. Words have the count of its items.
fn put_list_start(json: bool, buffer: &mut Text, object: &[u8], words: &[u8], count: usize)
    requires { array_vec_len buffer.old + (20 + max (length object.now) (length words.now)) ≤ 4096 }
    ensures { buffer.new.items ≡ buffer.old.items ++ message.list_start json object.now words.now count }
{
    put_either(json, buffer, object, words);
    if !json {
        put_decimal(buffer, count as u64);
    }
}

/// Returns the version of a query.
fn version_of<K: LineKey>(version: &QueryVersion<'_, K>) -> u8
    ensures { result ≡ spec.query_version K.family (numbered_version version.now) }
{
    match version {
        QueryVersion::Older(version) => number_of(*version),
        QueryVersion::Current(_) => K::current_version(),
    }
}

/// Returns the number of an older version.
fn number_of(version: OlderVersion) -> u8
    ensures { result ≡ spec.older_version version }
{
    match version {
        OlderVersion::V1 => 1,
        OlderVersion::V2 => 2,
    }
}

/// Returns the end of a query after its sources.
pub(crate) fn query_end<K: LineKey>(json: bool, version: &QueryVersion<'_, K>) -> &'static [u8]
    ensures text { result.now ≡ message.query_end json (numbered_version version.now) }
    ensures short { length result.now ≤ 2 }
{
    match version {
        _ if !json => b"",
        QueryVersion::Older(_) => b"}",
        QueryVersion::Current(_) => b"]}",
    }
}

/// Appends a source of a query or a record.
pub(crate) fn put_source<K: LineKey>(json: bool, buffer: &mut Text, is_first: bool, source: K)
    requires { array_vec_len buffer.old + 43 ≤ 4096 }
    ensures { buffer.new.items ≡ buffer.old.items ++ message.source_item json K.family is_first (K.number source) }
{
    if json {
        put_comma(buffer, is_first);
    } else {
        put(buffer, b" ");
    }
    put_address_in(json, buffer, source);
}

/// Appends an address, in an object in quotation marks.
fn put_address_in<K: LineKey>(json: bool, buffer: &mut Text, address: K)
    requires { array_vec_len buffer.old + 42 ≤ 4096 }
    ensures text { buffer.new.items ≡ buffer.old.items ++ address_in json K.family (K.number address) }
    ensures room { array_vec_len buffer.new ≤ array_vec_len buffer.old + 42 }
{
    if json {
        put_address_object(buffer, address);
    } else {
        put_address(buffer, address);
    }
}

/// Appends a Report of an older version.
pub(crate) fn put_older_report<K: LineKey>(
    json: bool,
    buffer: &mut Text,
    version: OlderVersion,
    group: K,
)
    requires { array_vec_len buffer.old + 120 ≤ 4096 }
    ensures { buffer.new.items ≡ buffer.old.items ++ message.older_report json K.family version (K.number group) }
{
    put_either(
        json,
        buffer,
        b"{\"type\":\"report\",\"version\":",
        b"report v",
    );
    put_subject(json, buffer, number_of(version), group);
    put_either(json, buffer, b"}", b"");
}

/// Appends a Leave or Done.
pub(crate) fn put_leave<K: LineKey>(json: bool, buffer: &mut Text, group: K)
    requires { array_vec_len buffer.old + 100 ≤ 4096 }
    ensures { buffer.new.items ≡ buffer.old.items ++ message.leave json K.family (K.number group) }
{
    put_either(
        json,
        buffer,
        b"{\"type\":\"leave\",\"group\":",
        b"leave group ",
    );
    put_address_in(json, buffer, group);
    put_either(json, buffer, b"}", b"");
}

/// Appends a Report of the family's own version, up to its records.
pub(crate) fn put_report_start<K: LineKey>(json: bool, buffer: &mut Text, count: usize)
    requires { array_vec_len buffer.old + 100 ≤ 4096 }
    ensures { buffer.new.items ≡ buffer.old.items ++ message.report_start json K.family count }
{
    put_either(
        json,
        buffer,
        b"{\"type\":\"report\",\"version\":",
        b"report v",
    );
    put_decimal(buffer, u64::from(K::current_version()));
    put_list_start(json, buffer, b",\"records\":[", b" records ", count);
}

/// Appends a record up to its sources.
pub(crate) fn put_record_start<K: LineKey>(
    json: bool,
    buffer: &mut Text,
    is_first: bool,
    kind: u8,
    group: K,
)
    requires { array_vec_len buffer.old + 120 ≤ 4096 }
    ensures { buffer.new.items ≡ buffer.old.items ++ message.record_start json K.family is_first kind (K.number group) }
{
    if json {
        put_comma(buffer, is_first);
        put(buffer, b"{\"kind\":");
    } else {
        put(buffer, b" [");
    }
    put_kind(json, buffer, kind);
    put_either(json, buffer, b",\"group\":", b" ");
    put_address_in(json, buffer, group);
    put_either(json, buffer, b",\"sources\":[", b"");
}

/// Appends the type of a record.
fn put_kind(json: bool, buffer: &mut Text, kind: u8)
    requires { array_vec_len buffer.old + 25 ≤ 4096 }
    ensures text { buffer.new.items ≡ buffer.old.items ++ kind_in json kind }
    ensures room { array_vec_len buffer.new ≤ array_vec_len buffer.old + 25 }
{
    match kind {
        1 => put_either(json, buffer, b"\"IS_IN\"", b"IS_IN"),
        2 => put_either(json, buffer, b"\"IS_EX\"", b"IS_EX"),
        3 => put_either(json, buffer, b"\"TO_IN\"", b"TO_IN"),
        4 => put_either(json, buffer, b"\"TO_EX\"", b"TO_EX"),
        5 => put_either(json, buffer, b"\"ALLOW\"", b"ALLOW"),
        6 => put_either(json, buffer, b"\"BLOCK\"", b"BLOCK"),
        _ => {
            put_either(json, buffer, b"", b"TYPE ");
            put_decimal(buffer, u64::from(kind));
        }
    }
}

/// Appends a fault with its number, and its place if it has one.
pub(crate) fn put_fault(json: bool, buffer: &mut Text, fault: WireFault)
    requires { array_vec_len buffer.old + 100 ≤ 4096 }
    ensures { buffer.new.items ≡ buffer.old.items ++ fault_in json fault }
{
    match fault {
        WireFault::Truncated { at } => {
            put_either(
                json,
                buffer,
                b"{\"type\":\"fault\",\"number\":1,\"reason\":\"truncated\",\"at\":",
                b"fault 1 truncated at ",
            );
            put_decimal(buffer, at as u64);
            put_either(json, buffer, b"}", b"");
        }
        WireFault::Checksum => put_either(
            json,
            buffer,
            b"{\"type\":\"fault\",\"number\":2,\"reason\":\"checksum\"}",
            b"fault 2 checksum",
        ),
        WireFault::UnknownType => put_either(
            json,
            buffer,
            b"{\"type\":\"fault\",\"number\":3,\"reason\":\"unknown type\"}",
            b"fault 3 unknown type",
        ),
        WireFault::QueryLength => put_either(
            json,
            buffer,
            b"{\"type\":\"fault\",\"number\":4,\"reason\":\"query length\"}",
            b"fault 4 query length",
        ),
    }
}
