//! The refusals of linking, entries, the debugger and campaigns. No line has more than 80 columns.

/// The codes of these refusals, each with the text of `jvmx help CODE`.
pub(crate) const RUNS: [(&str, &str); 30] = [
    (
        "K01",
        "\
K01 RepeatedClass

The class has the name of a FILE before it: one file was handed in twice, or two
versions of it. Leave one out. A $ without quotes does it too: the shell reads
Shop$Stock.class as Shop.class. Write 'Shop$Stock.class'.
",
    ),
    (
        "K02",
        "\
K02 MissingSuper

The superclass or a superinterface is in no FILE, and isn't built in: its FILE
was forgotten, or its name differs, or it has a $ and no quotes (see K01). Hand
in its FILE too. jvmx needs FILE.. prints the names of all that aren't there.
",
    ),
    (
        "K03",
        "\
K03 Circular

The class is its own superclass or superinterface, over one or more steps: FILEs
of different versions were mixed. The FILE shown is the first that is part of
such a circle, not one that only leads to it. Compile the classes together.
",
    ),
    (
        "K04",
        "\
K04 SuperKind

The class extends an interface, or String, Class, System or PrintStream, or
nothing at all; or it implements a class; or it is an interface and extends
another class than java/lang/Object. A class became an interface, or the other
way round, and the FILE wasn't compiled again; or a tool wrote the wrong flags.
Compile it again. An interface's superinterfaces are listed where a class's are,
not as its superclass.
",
    ),
    (
        "K05",
        "\
K05 BuiltInName

The class has the name of a built-in class, as java/lang/Thread. Those are
always there. Leave it out, or rename it.
",
    ),
    (
        "K06",
        "\
K06 Memory

There was no memory for the program. Free memory, or hand in fewer classes.
",
    ),
    (
        "M01",
        "\
M01 NoEntry

The entry isn't there as it is written: its class is in no FILE, its name or
descriptor differs, it isn't static, it is <clinit>, a parameter is none of int,
byte, char, short, boolean and long, or the number of arguments isn't that of
the parameters. javap -s -p FILE shows the descriptors. Write the class with its
package, as a/b/C. Of a main class the method is main([Ljava/lang/String;)V.
",
    ),
    (
        "M02",
        "\
M02 Limits

A limit is out of its range: objects 4 to 16,777,216, elements 0 to 268,435,456,
threads 1 to 1,024, frames 1 to 65,536. Only a program of yours that calls
Machine::new meets it: the limits of eval and run are in range.
",
    ),
    (
        "M03",
        "\
M03 Memory

There was no memory for the machine. Free memory, and run again.
",
    ),
    (
        "B01",
        "\
B01 UnknownCommand

The line begins with no command's word, has too few or too many words, is empty,
or isn't UTF-8. Single spaces separate words: jvmx help debug has them all.
",
    ),
    (
        "B02",
        "\
B02 Number

The word in a number's place isn't decimal digits of at most 4,294,967,295.
",
    ),
    (
        "B03",
        "\
B03 NoThread

No thread of this number has been started yet: threads shows those that were.
",
    ),
    (
        "B04",
        "\
B04 NoObject

No object has this reference yet.
",
    ),
    (
        "B05",
        "\
B05 NoBreakpoint

No breakpoint has this number, or all numbers are used up.
",
    ),
    (
        "B06",
        "\
B06 NoPlace

The class itself declares no such method, its code has no instruction of this
number, or there is no such class. jvmx list prints the instructions; they are
counted from 0.
",
    ),
    (
        "S01",
        "\
S01 Read

Standard input failed. All whole lines before were answered.
",
    ),
    (
        "S02",
        "\
S02 Write

Standard output failed while an answer was written.
",
    ),
    (
        "S03",
        "\
S03 Memory

There was no memory for a line or its answer. Its command may have been carried
out.
",
    ),
    (
        "G01",
        "\
G01 TooManyJobs

--jobs is more than 1,000,000. Split the campaign by --first: jvmx tables joins
the parts.
",
    ),
    (
        "G02",
        "\
G02 TooManyWorkers

--workers is 0 or more than 64.
",
    ),
    (
        "G03",
        "\
G03 Repeated

The book has an entry of this number.
",
    ),
    (
        "G04",
        "\
G04 Memory

There was no memory, before any worker began or for an entry of the book.
",
    ),
    (
        "G05",
        "\
G05 WorkerFailed

There was no memory for a worker or for the table. The book has what was stored.
",
    ),
    (
        "G06",
        "\
G06 NotSkippable

A number is skipped only by a plan that stops, and because of a smaller one with
a cycle.
",
    ),
    (
        "G07",
        "\
G07 Range

A number isn't below the number of jobs.
",
    ),
    (
        "T01",
        "\
T01 Syntax

The line isn't as jvmx campaign, or jvmx explore --part, writes it, or the file
ends before its last line: the command that writes it was ended, or still runs.
Run that part again. The first FILE says which of the two commands wrote all.
",
    ),
    (
        "T02",
        "\
T02 MissingJob

No FILE has the job of this number, but one has a later job: the table of a part
isn't among the FILEs, or --stop ended it early. The first part begins with job
0.
",
    ),
    (
        "T03",
        "\
T03 RepeatedJob

Two FILEs have the job of this number: one was handed in twice, or a --first or
a --jobs was wrong.
",
    ),
    (
        "T04",
        "\
T04 RepeatedPart

Two FILEs have the part of this number, the I of --part I/N: one was handed in
twice, or a --part was wrong.
",
    ),
    (
        "T05",
        "\
T05 OtherExploration

The FILEs aren't those of one exploration: the N of their --part I/N differ, or
what they cover does, --departures or --within; or a sum exceeds 2^64 - 1. All
parts need the same words but for --part.
",
    ),
];
