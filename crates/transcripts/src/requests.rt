//! Requests, as they are displayed for debugging.

use self::Value::{
    Flag, Given, GivenLong, GivenShort, Layout, Program, Reports, Short, Text, Texts,
};
use cases::Case;
use command_inputs::{
    Asked, Audit, Bench, Capture, Check, Compare, Decode, Dump, Encode, Format, Generate, Listing,
    Measure, Product, ProgramArgs, Replay, Salvage,
};
use payload::Mode;
use std::fmt::Debug;

/// The value of a field. Fields are put as a list of these, since each call of a generic function costs a proof.
#[derive(Clone, Copy)]
enum Value<'v> {
    Flag(&'v bool),
    Short(&'v u16),
    GivenShort(&'v Option<u16>),
    GivenLong(&'v Option<u64>),
    Reports(&'v Mode),
    Layout(&'v Format),
    Text(&'v str),
    Given(&'v Option<&'v str>),
    Texts(&'v [&'v str]),
    Program(&'v ProgramArgs<'v>),
}

/// Appends the name of a field, and what is before its value.
fn put_name(text: &Case, name: &str) {
    let came = text.taken();
    text.put(came.as_str());
    if !came.as_str().ends_with("{ ") {
        text.put(", ");
    }
    text.put(name);
    text.put(": ");
}

/// Appends the name of a field and its value.
fn put<D: Debug + Drop>(text: &Case, name: &str, value: D) {
    put_name(text, name);
    text.put_debug(value);
}

/// Appends a program.
fn put_program(text: &Case, program: &ProgramArgs<'_>) {
    text.put("ProgramArgs { ");
    put(text, "base", program.base);
    put(text, "also", program.also.as_slice());
    put(text, "image", program.image);
    text.put(" }");
}

/// Appends a value.
fn put_value(text: &Case, value: Value<'_>) {
    match value {
        Flag(flag) => text.put_debug(*flag),
        Short(short) => text.put_debug(*short),
        GivenShort(short) => text.put_debug(*short),
        GivenLong(long) => text.put_debug(*long),
        Reports(mode) => text.put_debug(*mode),
        Layout(format) => text.put(match format {
            Format::Text => "Text",
            Format::Csv => "Csv",
            Format::Other => "Other",
        }),
        Text(one) => text.put_debug(one),
        Given(given) => text.put_debug(*given),
        Texts(texts) => text.put_debug(texts),
        Program(program) => put_program(text, program),
    }
}

/// Appends fields.
fn put_fields(text: &Case, fields: &[(&str, Value<'_>)]) {
    for (name, value) in fields {
        put_name(text, *name);
        put_value(text, *value);
    }
}

/// Appends fields of a request, `KIND NAME` each.
macro_rules! put_all {
    ($text:expr, $asked:expr, $($kind:ident: $name:ident),*) => {
        put_fields($text, &[$((stringify!($name), $kind(&$asked.$name))),*])
    };
}

fn put_check(text: &Case, asked: &Check<'_>) {
    text.put("Check(Check { ");
    put_all!(text, asked,
        Program: program, Flag: explain, Given: symbols, Flag: long, Flag: progress, Texts: logs);
}

fn put_encode(text: &Case, asked: &Encode<'_>) {
    text.put("Encode(Encode { ");
    put_all!(text, asked, Program: program, Short: period, Reports: mode);
    put(text, "version", asked.version);
    put_all!(text, asked,
        Flag: hex, GivenLong: mixed, GivenShort: first, GivenShort: of, Flag: long, Flag: progress,
        Texts: logs);
}

fn put_dump(text: &Case, asked: &Dump<'_>) {
    text.put("Dump(Dump { ");
    put_all!(text, asked,
        Flag: search, Given: only, Given: symbols, Flag: progress, Text: capture);
}

fn put_decode(text: &Case, asked: &Decode<'_>) {
    text.put("Decode(Decode { ");
    put_all!(text, asked,
        Program: program, Short: harts, Given: only, Flag: lossy, Flag: progress, Text: capture);
}

fn put_replay(text: &Case, asked: &Replay<'_>) {
    text.put("Replay(Replay { ");
    put_all!(text, asked, Program: program, Short: period, Reports: mode);
    put(text, "capacity", asked.capacity);
    put_all!(text, asked, Flag: progress, Text: schedule, Texts: logs);
}

fn put_bench(text: &Case, asked: &Bench<'_>) {
    text.put("Bench(Bench { ");
    put_all!(text, asked, Program: program, Short: period, Reports: mode);
    put(text, "capacity", asked.capacity);
    put_all!(text, asked, Flag: progress, Texts: logs);
}

fn put_audit(text: &Case, asked: &Audit<'_>) {
    text.put("Audit(Audit { ");
    put_all!(text, asked,
        Flag: packets, Flag: unnumbered, Flag: live, GivenLong: window, Given: only, Flag: summary,
        Layout: format, Flag: progress, Text: sent, Text: received);
}

fn put_measure(text: &Case, asked: &Measure<'_>) {
    text.put("Measure(Measure { ");
    put_all!(text, asked,
        Program: program, Short: period, Reports: mode, Flag: long, Flag: progress,
        Texts: logs);
}

fn put_listing(text: &Case, asked: &Listing<'_>) {
    text.put("Listing(Listing { ");
    put_all!(text, asked,
        Program: program, GivenShort: harts, Given: only, Given: symbols, Flag: rows,
        Flag: salvage, Layout: format, Flag: progress, Text: capture);
}

fn put_salvage(text: &Case, asked: &Salvage<'_>) {
    text.put("Salvage(Salvage { ");
    put_all!(text, asked,
        Program: program, GivenShort: harts, Given: only, Given: symbols, Flag: summary,
        Layout: format, Flag: progress, Text: capture);
}

fn put_capture(text: &Case, asked: &Capture<'_>) {
    text.put("Capture(Capture { ");
    put(text, "version", asked.version);
    put_all!(text, asked,
        Reports: mode, Short: period, GivenShort: harts, GivenShort: number_bits,
        Flag: skip, Text: lines);
}

fn put_compare(text: &Case, asked: &Compare<'_>) {
    text.put("Compare(Compare { ");
    put_all!(text, asked,
        Program: program, Short: harts, Given: only, Flag: explain, Given: symbols, Flag: long,
        Flag: progress, Text: capture, Texts: logs);
}

fn put_generate(text: &Case, asked: &Generate<'_>) {
    text.put("Generate(Generate { ");
    text.put(match asked.product {
        Product::Image => "product: Image",
        Product::Log => "product: Log",
        Product::Capture => "product: Capture",
        Product::Other => "product: Other",
    });
    put(text, "seed", asked.seed);
    put(text, "mix", asked.mix);
    put_all!(text, asked,
        Text: base, GivenShort: hart, GivenLong: events, GivenShort: harts, GivenLong: messages,
        GivenShort: period, Reports: mode);
    put(text, "version", asked.version);
    put(text, "burst", asked.burst);
}

/// Appends a line with what is asked.
pub(crate) fn put_asked(text: &Case, asked: &Asked<'_>) {
    match asked {
        Asked::Check(asked) => put_check(text, asked),
        Asked::Encode(asked) => put_encode(text, asked),
        Asked::Dump(asked) => put_dump(text, asked),
        Asked::Decode(asked) => put_decode(text, asked),
        Asked::Replay(asked) => put_replay(text, asked),
        Asked::Bench(asked) => put_bench(text, asked),
        Asked::Audit(asked) => put_audit(text, asked),
        Asked::Measure(asked) => put_measure(text, asked),
        Asked::Listing(asked) => put_listing(text, asked),
        Asked::Salvage(asked) => put_salvage(text, asked),
        Asked::Capture(asked) => put_capture(text, asked),
        Asked::Compare(asked) => put_compare(text, asked),
        Asked::Generate(asked) => put_generate(text, asked),
    }
    text.put(" })\n");
}
