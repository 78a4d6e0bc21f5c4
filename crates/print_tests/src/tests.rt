mod parentheses;
mod printing;
