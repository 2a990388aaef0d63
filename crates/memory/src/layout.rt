// How the work words are laid out. A table is a part of them, a column a part of its table; a row of a column is one word.
ghost use Rattle.std.specs.Prelude.{◌≡◌, true};

pub const WORDS: usize = 16384;

// What the label pass decided, by statement.
pub const OUTCOMES: usize = 0;

pub const OUTCOMES_END: usize = 2048;

// Labels and locals. The columns of the labels come first, then those of the locals, then the heads by name.
pub const SCOPES: usize = 2048;

pub const SCOPES_END: usize = 13312;

pub const LABEL_NAME: usize = 0;

pub const LABEL_PLACE: usize = 1024;

pub const LABEL_GOTO: usize = 2048;

pub const LABEL_NOTE: usize = 3072;

pub const LOCAL_NAME: usize = 4096;

pub const LOCAL_PLACE: usize = 5120;

pub const LOCAL_FROM: usize = 6144;

pub const LOCAL_ID: usize = 7168;

pub const LOCAL_FATE: usize = 8192;

pub const LOCAL_GOTO: usize = 9216;

pub const HEADS: usize = 10240;

pub const SCOPES_WORDS: usize = 11264;

// The label pass has no locals yet: there it keeps the shape of the statements, and the labels in scope.
pub const SHAPES: usize = 6144;

pub const SHAPES_END: usize = 12288;

pub const SHAPE_KIND: usize = 0;

pub const SHAPE_PREVIOUS: usize = 2048;

pub const SHAPE_INSIDE: usize = 4096;

pub const LABEL_STACK: usize = 12288;

pub const LABEL_STACK_END: usize = 13312;

// Constants and structures; behind the columns a row of 128 bits each for what they contain, one row to work with, and a row each for the edges handed over.
pub const CONTAINERS: usize = 13312;

pub const CONTAINERS_END: usize = 14980;

pub const CONTAINER_NAME: usize = 0;

pub const CONTAINER_PLACE: usize = 128;

pub const CONTAINER_ID: usize = 256;

pub const CONTAINER_KIND: usize = 384;

pub const CONTAINER_DEPTH: usize = 512;

pub const CONTAINED: usize = 640;

// The row of bits behind those of the containers, to work with.
pub const SPARE: usize = 128;

pub const CONTAINED_END: usize = 1156;

pub const EDGES: usize = 1156;

pub const CONTAINERS_WORDS: usize = 1668;

// Functions and heads.
pub const FUNCTIONS: usize = 14980;

pub const FUNCTIONS_END: usize = 15748;

pub const FUNCTION_NAME: usize = 0;

pub const FUNCTION_PLACE: usize = 256;

pub const FUNCTION_ID: usize = 512;

pub const FUNCTIONS_WORDS: usize = 768;

// No two tables share a word, and all of them fit.
pub fn tables_apart() -> bool
    ensures { result ≡ true }
{
    OUTCOMES_END <= SCOPES
        && SCOPES_END <= CONTAINERS
        && CONTAINERS_END <= FUNCTIONS
        && FUNCTIONS_END <= WORDS
}

// Nor do two columns of labels and locals.
pub fn scopes_apart() -> bool
    ensures { result ≡ true }
{
    LABEL_NAME + 1024 <= LABEL_PLACE
        && LABEL_PLACE + 1024 <= LABEL_GOTO
        && LABEL_GOTO + 1024 <= LABEL_NOTE
        && LABEL_NOTE + 1024 <= LOCAL_NAME
        && LOCAL_NAME + 1024 <= LOCAL_PLACE
        && LOCAL_PLACE + 1024 <= LOCAL_FROM
        && LOCAL_FROM + 1024 <= LOCAL_ID
        && LOCAL_ID + 1024 <= LOCAL_FATE
        && LOCAL_FATE + 1024 <= LOCAL_GOTO
        && LOCAL_GOTO + 1024 <= HEADS
        && HEADS + 1024 <= SCOPES_WORDS
        && SCOPES + SCOPES_WORDS <= SCOPES_END
}

// Nor do those of the label pass, which stand behind the labels' names and places.
pub fn shapes_apart() -> bool
    ensures { result ≡ true }
{
    SCOPES + LABEL_PLACE + 1024 <= SHAPES
        && SHAPE_KIND + 2048 <= SHAPE_PREVIOUS
        && SHAPE_PREVIOUS + 2048 <= SHAPE_INSIDE
        && SHAPES + SHAPE_INSIDE + 2048 <= SHAPES_END
        && SHAPES_END <= LABEL_STACK
        && LABEL_STACK + 1024 <= LABEL_STACK_END
        && LABEL_STACK_END <= SCOPES_END
}

// Nor do the columns and rows of constants and structures; a row has four words, and there is one row more than containers.
pub fn containers_apart() -> bool
    ensures { result ≡ true }
{
    CONTAINER_NAME + 128 <= CONTAINER_PLACE
        && CONTAINER_PLACE + 128 <= CONTAINER_ID
        && CONTAINER_ID + 128 <= CONTAINER_KIND
        && CONTAINER_KIND + 128 <= CONTAINER_DEPTH
        && CONTAINER_DEPTH + 128 <= CONTAINED
        && CONTAINED + 516 <= CONTAINED_END
        && CONTAINED_END <= EDGES
        && EDGES + 512 <= CONTAINERS_WORDS
        && CONTAINERS + CONTAINERS_WORDS <= CONTAINERS_END
}

// Nor do the columns of functions.
pub fn functions_apart() -> bool
    ensures { result ≡ true }
{
    FUNCTION_NAME + 256 <= FUNCTION_PLACE
        && FUNCTION_PLACE + 256 <= FUNCTION_ID
        && FUNCTION_ID + 256 <= FUNCTIONS_WORDS
        && FUNCTIONS + FUNCTIONS_WORDS <= FUNCTIONS_END
}
