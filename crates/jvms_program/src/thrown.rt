//! The exceptions that the machine throws by itself (JVMS 2.10).

/// The class of an exception that the machine throws by itself.
#[derive(Clone, Copy, Debug, PartialEq, Eq)]
pub enum Thrown {
    ArithmeticException,
    ArrayStoreException,
    ClassCastException,
    IllegalMonitorStateException,
    IllegalThreadStateException,
    NegativeArraySizeException,
    NullPointerException,
    ArrayIndexOutOfBoundsException,
    NoClassDefFoundError,
    IncompatibleClassChangeError,
    UnsatisfiedLinkError,
    ExceptionInInitializerError,
    AbstractMethodError,
    InstantiationError,
    NoSuchFieldError,
    NoSuchMethodError,
    OutOfMemoryError,
    StackOverflowError,
}
