mod document_lines;
mod documents;
