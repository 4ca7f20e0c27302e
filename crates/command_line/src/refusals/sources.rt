//! The refusals of sources and listings. No line has more than 80 columns.

/// The codes of these refusals, each with the text of `jvmx help CODE`.
pub(crate) const SOURCES: [(&str, &str); 23] = [
    (
        "J01",
        "\
J01 Lexeme

A text isn't closed on its line, or a backslash in it begins no escape. The
escapes are \\n \\r \\t \\b \\f \\\" \\' \\\\ and \\u with four hexadecimal digits.
",
    ),
    (
        "J02",
        "\
J02 UnknownDirective

No directive has this name. They are .bytecode .source .class .interface .super
.implements .field .method .end .limit .catch .throws .line .var.
",
    ),
    (
        "J03",
        "\
J03 UnknownInstruction

No instruction has this name. wide is added by itself where it is needed. A
directive after a label on one line is read as an instruction.
",
    ),
    (
        "J04",
        "\
J04 OutOfPlace

The statement isn't allowed here: a field before .class, .super after
.implements, a label or an instruction outside of a method, an instruction in a
native or abstract method, a directive within a switch.
",
    ),
    (
        "J05",
        "\
J05 Number

No number is given where one is needed, or it is out of range: bipush takes -128
to 127, limits and locals 0 to 65,535, .bytecode 45.0 to 50.65535. A tableswitch
has too many labels for its lowest value.
",
    ),
    (
        "J06",
        "\
J06 Operand

An operand is missing, is one too many, or has a wrong form: new of an array,
more dimensions than the class has, a wrong count of invokeinterface, values of
a lookupswitch that don't rise, a field's value that isn't one of its type.
",
    ),
    (
        "J07",
        "\
J07 Name

A name or a label is out of its form: a class with dots (write a/b/C), a label
that begins with a digit, +, - or ., a method with < other than <init> and
<clinit>.
",
    ),
    (
        "J08",
        "\
J08 Descriptor

A descriptor is out of its form: (int)V for (I)V, a class without L and ;, more
than 255 units of parameters.
",
    ),
    (
        "J09",
        "\
J09 Flags

A word before the name isn't an access word of its kind or comes twice, or a
method of an interface isn't abstract. Write abstract before it.
",
    ),
    (
        "J10",
        "\
J10 Repeated

A statement that may come once comes again, as .super or .limit stack; or a
field or method with this name and descriptor is there already.
",
    ),
    (
        "J11",
        "\
J11 Missing

The text ends without .class or .interface, before .end method, or before a
switch's default.
",
    ),
    (
        "J12",
        "\
J12 Memory

There was no memory for the source. Free memory, and run again.
",
    ),
    (
        "A01",
        "\
A01 UndefinedLabel

A label that an instruction or a .catch names isn't defined in its method, or
follows the last instruction. Only the to of a .catch may follow it.
",
    ),
    (
        "A02",
        "\
A02 RepeatedLabel

A label is defined twice in a method. Rename one.
",
    ),
    (
        "A03",
        "\
A03 BranchTooFar

A branch can't reach its label: the offset is below -32,768 or above 32,767.
Write goto_w or jsr_w, or turn the condition round and jump over a goto_w: no
branch is lengthened by itself.
",
    ),
    (
        "A04",
        "\
A04 CodeLength

A method has no instruction, or more than 65,535 bytes of them. Give it one, or
split it.
",
    ),
    (
        "A05",
        "\
A05 PoolFull

The constant pool would need a number above 65,534. Split the class.
",
    ),
    (
        "A06",
        "\
A06 Memory

There was no memory for the class. Free memory, and run again.
",
    ),
    (
        "A07",
        "\
A07 TooMany

More than 65,535 fields, methods, interfaces, catches of a method, thrown names
of a method, or bytes of a text. Split what is too long.
",
    ),
    (
        "A08",
        "\
A08 CatchRange

The from of a .catch isn't before its to. Exchange them.
",
    ),
    (
        "L01",
        "\
L01 Name

A name of the class can't be spelled in a source: it holds white space, a quote,
: or =, or a method's name a (; or the class has no superclass. Such a class
runs, and can't be listed.
",
    ),
    (
        "L02",
        "\
L02 Float

An instruction or a field uses a float or a double, which sources don't have.
",
    ),
    (
        "L03",
        "\
L03 Memory

There was no memory for the listing. Free memory, and run again.
",
    ),
];
