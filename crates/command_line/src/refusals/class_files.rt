//! The refusals of class files. No line has more than 80 columns.

/// The codes of these refusals, each with the text of `jvmx help CODE`.
pub(crate) const CLASS_FILES: [(&str, &str); 18] = [
    (
        "C01",
        "\
C01 Truncated at N

The file ends too early: it was cut in a copy, or a count or length in it is too
large. Copy or compile it again.
",
    ),
    (
        "C02",
        "\
C02 Magic

The first four bytes aren't CA FE BA BE: it is a source, an archive or another
file. Hand in the .class file; unpack an archive first.
",
    ),
    (
        "C03",
        "\
C03 Version

The major version isn't one of 45 to 50: it was compiled for Java 7 or later.
Compile with the Eclipse compiler: ecj -proc:none -source 1.5 -target 1.5 -d out
X.java (Debian's package ecj). javac up to Java 11 takes -source 1.6 -target
1.6. From Java 12 on no javac writes such files.
",
    ),
    (
        "C04",
        "\
C04 Tag

A pool entry's tag is none of 1 and 3 to 12: the entry before it has a wrong
length, or a newer class was given an old version. Compile for an old version;
don't change the version alone.
",
    ),
    (
        "C05",
        "\
C05 Index

A number names no pool entry, or one of a wrong kind. Also: an array as the
class, its superclass or an interface; a ConstantValue of another type than its
field; a long or double in the pool's last number. Correct the number. Those in
instructions are C12.
",
    ),
    (
        "C06",
        "\
C06 Utf8

A text isn't in Modified UTF-8: it has a zero byte, a character of four bytes,
or one spelled longer than needed. Write U+0000 as C0 80, and a character beyond
U+FFFF as two surrogates of three bytes each.
",
    ),
    (
        "C07",
        "\
C07 Descriptor

A name or descriptor is out of its form: a class named with dots, a method's
name with < or >, more than 255 units of parameters, a field's reference to a
method's name and type. Correct the text. this, where there is one, counts as
one unit, and a long or a double as two.
",
    ),
    (
        "C08",
        "\
C08 AttributeLength

The length of a ConstantValue, Code or Exceptions isn't that of its content.
Correct the length.
",
    ),
    (
        "C09",
        "\
C09 RepeatedAttribute

A field has two ConstantValues, or a method two Codes or two Exceptions. Leave
one out.
",
    ),
    (
        "C10",
        "\
C10 CodePresence

A native or abstract method has Code, or another has none. Also: a method of an
interface that isn't abstract. <clinit> always has Code. Correct the flags, or
the Code.
",
    ),
    (
        "C11",
        "\
C11 Opcode at N

Byte N is no opcode: 186 (invokedynamic), or 202 to 255. Compile for version 50
or below.
",
    ),
    (
        "C12",
        "\
C12 Operand at N

The instruction at byte N is cut by the code's end, or doesn't take its operand:
a wrong kind of entry, ldc of a class before version 49, new of an array, a
wrong count of invokeinterface, wide before another instruction, a lookupswitch
that doesn't rise. Correct the operand.
",
    ),
    (
        "C13",
        "\
C13 Target at N

The branch or switch at byte N leads to a byte that is no instruction's start.
The code's end is none. Correct its offsets. They count from the instruction's
own byte.
",
    ),
    (
        "C14",
        "\
C14 Handler

An entry of an exception table has an empty range, or a start, an end or a
handler that is no instruction's start. Only an end may be the code's. Correct
the table.
",
    ),
    (
        "C15",
        "\
C15 CodeLength

A method's code has no byte, or more than 65,535. Give the method an
instruction, or split it.
",
    ),
    (
        "C16",
        "\
C16 Trailing

Bytes follow the class: two files were joined, or a count is too small. Cut the
file, or correct the count.
",
    ),
    (
        "C17",
        "\
C17 RepeatedMember

Two fields, or two methods, have one name and one descriptor. Rename or remove
one.
",
    ),
    (
        "C18",
        "\
C18 Memory

There was no memory for the class. Free memory, and run again.
",
    ),
];
